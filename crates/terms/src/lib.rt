#![tactic(auto)]

// Lists of terms in lent places: the functions that a list under work hands its places on to.
ghost use Rattle.std.specs.Prelude.{◌≡◌, ◌+◌, ◌-◌, ◌<◌, ◌≤◌, ◌++◌, length, take, drop, replicate};
ghost use Rattle.std.specs.List.{insert};
ghost use Rattle.variables.specs.Order.{equal};
ghost use Rattle.variables.specs.Terms.{negated, scaled, nothing};
ghost use Rattle.variables.specs.Compact.{placed};
ghost use Rattle.variables.specs.Compact as compact;
ghost use Rattle.variables.specs.Locate.{first_is, location, gained};
ghost use Rattle.variables.specs.Locate as sought;
ghost use Rattle.variables.specs.Merge.{merged};
ghost use Rattle.variables.specs.Evaluate.{read, evaluated};

use field::Field;
use variables::{Assignment, LcIndex, Term, Variable};

mod combine;
mod merging;

use combine::Same;
pub use combine::{Combine, Minus, Plus, PlusScaled};
use merging::Merge;

// Every number negated. This and the next have a loop each: of a closure in their place the clause could only speak of all functions that
// it might compute.
#[tactic(auto, using(crate::proofs::Edits::mapped_more))]
pub fn negate<F: Field>(terms: &mut [Term<F>])
    ensures { terms.new ≡ negated F.model terms.old }
{
    for t in terms.iter_mut() {
        t.number = t.number.negative();
    }
}

// Every number multiplied by `scalar`.
#[tactic(auto, using(crate::proofs::Edits::mapped_more))]
pub fn scale<F: Field>(terms: &mut [Term<F>], scalar: F)
    ensures { terms.new ≡ scaled F.model scalar terms.old }
{
    for t in terms.iter_mut() {
        t.number = t.number.product(scalar);
    }
}

// The place of the first term whose variable is not below `variable`, or the length. No binary search: the list need not rise.
fn seek<F: Field>(terms: &[Term<F>], variable: Variable) -> usize
    ensures { result ≡ sought.seek variable terms.now }
{
    terms
        .iter()
        .position(|t| t.variable >= variable)
        .unwrap_or(terms.len())
}

// Whether the term at `at` names `variable`.
fn stands_at<F: Field>(terms: &[Term<F>], at: usize, variable: Variable) -> bool
    ensures { result ≡ first_is variable (drop at terms.now) }
{
    terms.get(at).is_some_and(|t| t.variable == variable)
}

// `Ok` with the place where `variable` stands, or `Err` with the place where it may be inserted.
pub fn get_var_loc<F: Field>(terms: &[Term<F>], variable: Variable) -> Result<usize, usize>
    ensures { result ≡ location variable terms.now }
{
    let at = seek(terms, variable);
    if terms.len() >= 6 && stands_at(terms, at, variable) {
        Ok(at)
    } else {
        Err(at)
    }
}

// The term at `at` gains the number.
pub fn gain<F: Field>(terms: &mut [Term<F>], at: usize, number: F)
    requires { at < length terms.old }
    ensures { terms.new ≡ gained F.model number at terms.old }
{
    let t = &mut terms[at];
    t.number = t.number.sum(number);
}

// The term stands at `at`, those from there on move up, and the last is lost.
#[tactic(auto, using(crate::proofs::Edits::inserted))]
pub fn insert<F: Field>(terms: &mut [Term<F>], at: usize, term: Term<F>)
    requires { at < length terms.old }
    ensures { terms.new ≡ take (length terms.old) (insert terms.old at term) }
{
    terms[at..].rotate_right(1);
    terms[at] = term;
}

// Places a term among the first `len`, which are a part of the same lent places, and says how many there are then.
fn place<F: Field>(terms: &mut [Term<F>], len: usize, term: Term<F>) -> usize
    requires { len < length terms.old }
    ensures len { result ≤ len + 1 }
    ensures front { take result terms.new ≡ placed F.model term (take len terms.old) }
    ensures rest { drop (len + 1) terms.new ≡ drop (len + 1) terms.old }
{
    let front = &terms[..len];
    let at = seek(front, term.variable);
    if stands_at(front, at, term.variable) {
        gain(&mut terms[..len], at, term.number);
        return len;
    }
    insert(&mut terms[..=len], at, term);
    len + 1
}

// Places all terms in turn, and says how many there are then.
fn place_all<F: Field>(terms: &mut [Term<F>]) -> usize
    ensures len { result ≤ length terms.old }
    ensures front { take result terms.new ≡ compact.compactify F.model terms.old }
{
    // by index: each step reads one term and writes to the same slice
    let mut len = 0;
    for i in 0..terms.len() {
        let t = terms[i];
        len = place(terms, len, t);
    }
    len
}

// Places all terms in turn, clears the places that are left over, and says how many terms there are.
pub fn compactify<F: Field>(terms: &mut [Term<F>]) -> usize
    ensures len { result ≡ length (compact.compactify F.model terms.old) }
    ensures after { terms.new ≡ compact.compactify F.model terms.old ++ replicate (length terms.old - result) (nothing F.model) }
{
    let len = place_all(terms);
    // a closure: `Term::default` itself, a function that answers values of a type parameter, cannot yet be passed
    terms[len..].fill_with(|| Term::default());
    len
}

// How many terms a merge of two lists has, however their numbers combine.
pub fn merged_len<F: Field>(left: &[Term<F>], right: &[Term<F>]) -> usize
    ensures { (push : F → F) (combine : F → F → F) → result ≡ length (merged push combine left.now right.now) }
{
    Merge {
        with: &Same,
        left,
        right,
    }
    .count()
}

// Writes the merge of two lists, which fills the places.
pub fn merge<F: Field, C: Combine<F>>(
    with: &C,
    left: &[Term<F>],
    right: &[Term<F>],
    places: &mut [Term<F>],
)
    requires { length places.old ≡ length (merged (C.Combine.pushing with.now) (C.Combine.combining with.now) left.now right.now) }
    ensures { places.new ≡ merged (C.Combine.pushing with.now) (C.Combine.combining with.now) left.now right.now }
{
    let merge = Merge { with, left, right };
    // by place: what is written through `places.iter_mut().zip(merge)` is not known to the prover afterwards
    for (k, term) in merge.enumerate() {
        places[k] = term;
    }
}

// The value of a variable, where it is kept; `named` has those of the symbols.
pub fn value_of<F: Field>(
    assignment: &Assignment<F>,
    named: &[Option<F>],
    variable: Variable,
) -> Option<F>
    ensures { result ≡ read F.model assignment.now.instances.now assignment.now.witnesses.now named.now variable }
{
    match variable {
        Variable::SymbolicLc(LcIndex(k)) => named.get(k).copied().flatten(),
        other => assignment.value(other),
    }
}

// What a list is worth, or none where a term names a value that is not kept; `named` has the values of the symbols.
pub fn evaluate<F: Field>(
    terms: &[Term<F>],
    assignment: &Assignment<F>,
    named: &[Option<F>],
) -> Option<F>
    ensures { result ≡ evaluated F.model (read F.model assignment.now.instances.now assignment.now.witnesses.now named.now) terms.now }
{
    let mut sum = F::zero();
    for t in terms {
        let value = value_of(assignment, named, t.variable)?;
        sum = sum.sum(t.number.product(value));
    }
    Some(sum)
}
