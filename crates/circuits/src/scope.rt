// Which variables a list may name.
ghost use Rattle.std.specs.Prelude.{◌≡◌, map, take};
ghost use Rattle.std.specs.Option.{option_map};
ghost use Rattle.std.specs.Result.{result_err};
ghost use Rattle.account.specs.Refusals.{variable_refusal, terms_refusal};
ghost use Rattle.tables.specs.Held.{counted};
ghost use Rattle.circuits.specs.Faults.{fault_number, told_of, refusal_of};

use crate::places::entries_of;
use account::Mark;
use field::Field;
use tables::{Counts, Entry};
use variables::{LcIndex, Refusal, Term, Variable};

// Why a variable may not be named: it is not known, or it is a constraint's own list.
#[derive(Clone, Copy, PartialEq, Eq, Debug)]
pub enum NameFault {
    Unknown,
    ConstraintList,
}

// The same of a term, with the list that it stands in and its place there.
#[derive(Clone, Copy, PartialEq, Eq, Debug)]
pub struct TermFault {
    pub list: usize,
    pub term: usize,
    pub cause: NameFault,
}

impl From<TermFault> for Refusal {
    ghost from_gives = { λ f r. r ≡ refusal_of f };

    fn from(fault: TermFault) -> Refusal {
        let TermFault { list, term, cause } = fault;
        match cause {
            NameFault::Unknown => Refusal::UnknownVariable { list, term },
            NameFault::ConstraintList => Refusal::ConstraintList { list, term },
        }
    }
}

// What a list may name: so many instances and witnesses, and the plain lists among the entries before it.
#[derive(Clone, Copy)]
pub struct Scope<'a> {
    pub instances: usize,
    pub witnesses: usize,
    pub before: &'a [Entry],
}

impl<'a> Scope<'a> {
    // What a list may name that stands at the next free entry.
    pub fn at_next_entry(counts: &Counts, index: &'a [Entry]) -> Scope<'a>
        ensures instances { result.instances ≡ counts.now.instances }
        ensures witnesses { result.witnesses ≡ counts.now.witnesses }
        ensures before { result.before.now ≡ take counts.now.entries (counted index.now) }
    {
        Scope {
            instances: counts.instances,
            witnesses: counts.witnesses,
            before: entries_of(counts, index),
        }
    }
}

impl Scope<'_> {
    // A symbol's list has to come before, and be plain.
    fn check_symbol(&self, symbol: LcIndex) -> Result<(), NameFault>
        ensures { option_map fault_number (result_err result) ≡ variable_refusal self.now.instances self.now.witnesses (map (λ e. e.mark) self.now.before.now) (Variable.SymbolicLc symbol) }
    {
        match self.before.get(symbol.0) {
            None => Err(NameFault::Unknown),
            Some(entry) if entry.mark == Mark::Plain => Ok(()),
            Some(_) => Err(NameFault::ConstraintList),
        }
    }

    // Whether a variable may be named.
    pub fn check_variable(&self, variable: Variable) -> Result<(), NameFault>
        ensures { option_map fault_number (result_err result) ≡ variable_refusal self.now.instances self.now.witnesses (map (λ e. e.mark) self.now.before.now) variable }
    {
        match variable {
            Variable::Instance(i) if i >= self.instances => Err(NameFault::Unknown),
            Variable::Witness(i) if i >= self.witnesses => Err(NameFault::Unknown),
            Variable::SymbolicLc(symbol) => self.check_symbol(symbol),
            _ => Ok(()),
        }
    }

    // Whether all terms of a list may stand there, by the first that may not; `list` is which list a fault says it is.
    pub fn check_list<F: Field>(&self, list: usize, terms: &[Term<F>]) -> Result<(), TermFault>
        ensures { option_map told_of (result_err result) ≡ terms_refusal self.now.instances self.now.witnesses (map (λ e. e.mark) self.now.before.now) list 0 terms.now }
    {
        for (term, t) in terms.iter().enumerate() {
            self.check_variable(t.variable)
                .map_err(|cause| TermFault { list, term, cause })?;
        }
        Ok(())
    }
}
