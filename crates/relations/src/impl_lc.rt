// A list under work.
ghost use Rattle.std.specs.Prelude.{◌≡◌, ◌+◌, ◌<◌, ◌≤◌, [], ◌∷◌, length, ◌==◌, nat_le, if◌then◌else◌};
ghost use Rattle.std.specs.List.{insert};
ghost use Rattle.variables.specs.declared.Term.{Term};
ghost use Rattle.variables.specs.Terms.{opposite, negated, scaled};
ghost use Rattle.variables.specs.Compact as compact;
ghost use Rattle.variables.specs.Locate.{location, gained, added};
ghost use Rattle.variables.specs.Merge.{merged, merged_sum, merged_difference, merged_sum_scaled, merged_difference_scaled};
ghost use Rattle.variables.specs.Assigned.{assigned};
ghost use Rattle.variables.specs.Evaluate.{evaluated};

use field::Field;
use terms::{Combine, Minus, Plus, PlusScaled};
use variables::{Assignment, Refusal, Term, Variable};

// A list of terms over lent places: the first `len` of them are the list, and the others are spare. It has no memory of its own.
#[derive(Drop)]
pub struct LinearCombination<'a, F> {
    terms: &'a mut [Term<F>],
    len: usize,
    ghost fits: { len ≤ length terms.now },
}

impl<'a, F: Field> LinearCombination<'a, F> {
    ghost use Rattle.relations.specs.Held.{listed, spared, held, Changes, Frees, Becomes};

    // The empty list.
    pub fn new(places: &'a mut [Term<F>]) -> LinearCombination<'a, F>
        ensures place { result.terms.ghost_name ≡ places.entry.ghost_name }
        ensures holds { held result ≡ record { list = []; spare = places.old } }
    {
        LinearCombination {
            terms: places,
            len: 0,
        }
    }

    // The empty list, which is worth zero. The Rust has both names.
    pub fn zero(places: &'a mut [Term<F>]) -> LinearCombination<'a, F>
        ensures place { result.terms.ghost_name ≡ places.entry.ghost_name }
        ensures holds { held result ≡ record { list = []; spare = places.old } }
    {
        LinearCombination::new(places)
    }

    // The list of all terms that the places hold.
    pub fn whole(places: &'a mut [Term<F>]) -> LinearCombination<'a, F>
        ensures place { result.terms.ghost_name ≡ places.entry.ghost_name }
        ensures holds { held result ≡ record { list = places.old; spare = [] } }
    {
        let len = places.len();
        LinearCombination { terms: places, len }
    }

    pub fn len(&self) -> usize
        ensures { result ≡ length (listed self.now) }
    {
        self.terms().len()
    }

    pub fn is_empty(&self) -> bool
        ensures { result ≡ (length (listed self.now) == 0) }
    {
        self.terms().is_empty()
    }

    // How many terms the places can hold.
    pub fn capacity(&self) -> usize
        ensures { result ≡ length (listed self.now) + length (spared self.now) }
    {
        self.terms.len()
    }

    // The list as a part of the places.
    pub fn terms(&self) -> &[Term<F>]
        ensures { result.now ≡ listed self.now }
    {
        &self.terms[..self.len]
    }

    pub fn negate_in_place(&mut self)
        ensures { Changes (negated F.model (listed self.old)) self.old self.new }
    {
        terms::negate(&mut self.terms[..self.len]);
    }

    pub fn mul_assign(&mut self, scalar: F)
        ensures { Changes (scaled F.model scalar (listed self.old)) self.old self.new }
    {
        terms::scale(&mut self.terms[..self.len], scalar);
    }

    // Puts terms of one variable together, rising by variable. The places that it frees hold zero times Zero.
    pub fn compactify(&mut self)
        ensures { Frees F.model (compact.compactify F.model (listed self.old)) self.old self.new }
    {
        self.len = terms::compactify(&mut self.terms[..self.len]);
    }

    // `Ok` with the place where `variable` stands, or `Err` with the place where it may be inserted. Under six terms it is always `Err`.
    pub fn get_var_loc(&self, variable: Variable) -> Result<usize, usize>
        ensures { result ≡ location variable (listed self.now) }
    {
        terms::get_var_loc(self.terms(), variable)
    }

    // Adds a term, or what becomes one: where its variable is found that gains the number, and else it is inserted.
    pub fn add_term<T: Into<Term<F>>>(&mut self, term: T) -> Result<(), Refusal>
        ensures { (t : Term _) × T.converts term t × Becomes (added F.model t (listed self.old)) self.old self.new result }
    {
        self.add(term.into())
    }

    // Adds it with the negative number.
    pub fn sub_term<T: Into<Term<F>>>(&mut self, term: T) -> Result<(), Refusal>
        ensures { (t : Term _) × T.converts term t × Becomes (added F.model (opposite F.model t) (listed self.old)) self.old self.new result }
    {
        self.sub(term.into())
    }

    // The list becomes a copy of another.
    pub fn assign(&mut self, list: &[Term<F>]) -> Result<(), Refusal>
        ensures { Becomes list.now self.old self.new result }
    {
        let n = list.len();
        self.room_for(n)?;
        self.terms[..n].copy_from_slice(list);
        self.len = n;
        Ok(())
    }

    // The list becomes one term, or what becomes one.
    pub fn assign_term<T: Into<Term<F>>>(&mut self, term: T) -> Result<(), Refusal>
        ensures { (t : Term _) × T.converts term t × Becomes (t ∷ []) self.old self.new result }
    {
        self.set(term.into())
    }

    // The list becomes `left` plus `right`.
    pub fn assign_sum(&mut self, left: &[Term<F>], right: &[Term<F>]) -> Result<(), Refusal>
        ensures { Becomes (merged_sum F.model left.now right.now) self.old self.new result }
    {
        self.assign_merge(&Plus, left, right)
    }

    // The list becomes `left` minus `right`.
    pub fn assign_difference(&mut self, left: &[Term<F>], right: &[Term<F>]) -> Result<(), Refusal>
        ensures { Becomes (merged_difference F.model left.now right.now) self.old self.new result }
    {
        self.assign_merge(&Minus, left, right)
    }

    // The list becomes `left` plus `by` times `right`.
    pub fn assign_sum_scaled(
        &mut self,
        left: &[Term<F>],
        by: F,
        right: &[Term<F>],
    ) -> Result<(), Refusal>
        ensures { Becomes (merged_sum_scaled F.model by left.now right.now) self.old self.new result }
    {
        self.assign_merge(&PlusScaled { by }, left, right)
    }

    // The list becomes `left` minus `by` times `right`.
    pub fn assign_difference_scaled(
        &mut self,
        left: &[Term<F>],
        by: F,
        right: &[Term<F>],
    ) -> Result<(), Refusal>
        ensures { Becomes (merged_difference_scaled F.model by left.now right.now) self.old self.new result }
    {
        self.assign_sum_scaled(left, by.negative(), right)
    }

    // What the list is worth, or none where a term names a symbol or a value that is not kept.
    pub fn worth(&self, assignment: &Assignment<F>) -> Option<F>
        ensures { result ≡ evaluated F.model (assigned F.model assignment.now) (listed self.now) }
    {
        // a variable: `&[]` itself, passed beside an assignment, has no lifetime that the proof of a call can name
        let named: [Option<F>; 0] = [];
        terms::evaluate(self.terms(), assignment, &named)
    }

    // Whether the places can hold `n` terms. They are written by index then: of what is written through `get_mut` the length alone would be
    // known.
    fn room_for(&self, n: usize) -> Result<(), Refusal>
        ensures { result ≡ (if nat_le n (length self.now.terms.now) then Ok tt else Err Refusal.TableTooShort) }
    {
        if n > self.terms.len() {
            return Err(Refusal::TableTooShort);
        }
        Ok(())
    }

    // `add_term` of what is a term already; so are `sub` and `set`
    #[tactic(auto, using(crate::proofs::Holds::free_within, crate::proofs::Holds::becomes_gained))]
    fn add(&mut self, term: Term<F>) -> Result<(), Refusal>
        ensures { Becomes (added F.model term (listed self.old)) self.old self.new result }
    {
        match self.get_var_loc(term.variable) {
            Ok(at) => {
                self.gain(at, term.number);
                Ok(())
            }
            Err(at) => self.insert(at, term),
        }
    }

    fn sub(&mut self, term: Term<F>) -> Result<(), Refusal>
        ensures { Becomes (added F.model (opposite F.model term) (listed self.old)) self.old self.new result }
    {
        self.add(Term {
            number: term.number.negative(),
            variable: term.variable,
        })
    }

    // not `assign` of an array of one: a caller would owe that a term fits in memory
    fn set(&mut self, term: Term<F>) -> Result<(), Refusal>
        ensures { Becomes (term ∷ []) self.old self.new result }
    {
        self.room_for(1)?;
        self.terms[0] = term;
        self.len = 1;
        Ok(())
    }

    fn gain(&mut self, at: usize, number: F)
        requires { at < length (listed self.old) }
        ensures { Changes (gained F.model number at (listed self.old)) self.old self.new }
    {
        terms::gain(&mut self.terms[..self.len], at, number);
    }

    fn insert(&mut self, at: usize, term: Term<F>) -> Result<(), Refusal>
        requires { at ≤ length (listed self.old) }
        ensures { Becomes (insert (listed self.old) at term) self.old self.new result }
    {
        let n = self.len + 1;
        self.room_for(n)?;
        terms::insert(&mut self.terms[..n], at, term);
        self.len = n;
        Ok(())
    }

    // the two meanings of `with` stand together here, in `terms::merge` and in its iterator alone; they are what `merged` is defined over,
    // so one name for both would only be taken apart again
    fn assign_merge<C: Combine<F>>(
        &mut self,
        with: &C,
        left: &[Term<F>],
        right: &[Term<F>],
    ) -> Result<(), Refusal>
        ensures { Becomes (merged (C.Combine.pushing with.now) (C.Combine.combining with.now) left.now right.now) self.old self.new result }
    {
        let n = terms::merged_len(left, right);
        self.room_for(n)?;
        terms::merge(with, left, right, &mut self.terms[..n]);
        self.len = n;
        Ok(())
    }
}
