#![tactic(auto)]

// Variables, terms and lists of terms: the types, and the definitions and laws that everything above is promised with.
ghost use Rattle.std.specs.Prelude.{◌≡◌};
ghost use Rattle.variables.specs.Order.{below, Ordered};
ghost use Rattle.variables.specs.Questions.{is_zero, is_one, is_instance, is_witness, is_lc, lc_index, column_of};
ghost use Rattle.variables.specs.Terms.{term, once, nothing};
ghost use Rattle.variables.specs.Refusals.{told, error_number};
ghost use Rattle.variables.specs.declared.Refusal.TheVariants.{Synthesis};
ghost use Rattle.variables.specs.Laws.{Compacts, Adds, ListsWorth, MergesRise, Seeks, Evaluates};

mod assignment;
mod text;

pub use assignment::Assignment;
use field::Field;

// The number of a symbolic linear combination; never a row or a column.
#[derive(Clone, Copy, PartialEq, Eq, PartialOrd, Ord, Debug)]
pub struct LcIndex(pub usize);

// What a term names. The order of the cases, and then of their numbers, is the order of variables.
#[derive(Clone, Copy, PartialEq, Eq, PartialOrd, Ord, Debug)]
pub enum Variable {
    Zero,
    One,
    Instance(usize),
    Witness(usize),
    SymbolicLc(LcIndex),
}

// A number times a variable.
#[derive(Clone, Copy)]
pub struct Term<F> {
    pub number: F,
    pub variable: Variable,
}

// A number and a variable.
impl<F: Field> From<(F, Variable)> for Term<F> {
    ghost from_gives = { λ p t. t ≡ term p.0 p.1 };

    fn from((number, variable): (F, Variable)) -> Term<F> {
        Term { number, variable }
    }
}

// One times a variable.
impl<F: Field> From<Variable> for Term<F> {
    ghost from_gives = { λ v t. t ≡ once F.Field.model v };

    fn from(variable: Variable) -> Term<F> {
        Term {
            number: F::one(),
            variable,
        }
    }
}

// Zero times Zero: what a place holds that no list needs.
impl<F: Field> Default for Term<F> {
    ghost is_default = { λ t. t ≡ nothing F.model };

    fn default() -> Term<F> {
        Term {
            number: F::zero(),
            variable: Variable::Zero,
        }
    }
}

// What can go wrong while a circuit is written.
#[derive(Clone, Copy, PartialEq, Eq, Debug)]
pub enum SynthesisError {
    MissingCS,
    AssignmentMissing,
    DivisionByZero,
    Unsatisfiable,
    PolynomialDegreeTooLarge,
    UnexpectedIdentity,
    MalformedVerifyingKey,
    UnconstrainedVariable,
}

impl SynthesisError {
    // its place among the errors, from 1
    pub fn number(self) -> u8
        ensures { result ≡ error_number self }
    {
        match self {
            SynthesisError::MissingCS => 1,
            SynthesisError::AssignmentMissing => 2,
            SynthesisError::DivisionByZero => 3,
            SynthesisError::Unsatisfiable => 4,
            SynthesisError::PolynomialDegreeTooLarge => 5,
            SynthesisError::UnexpectedIdentity => 6,
            SynthesisError::MalformedVerifyingKey => 7,
            SynthesisError::UnconstrainedVariable => 8,
        }
    }
}

// Why a call is denied. specs/Refusals has the number of each.
#[derive(Clone, Copy, PartialEq, Eq, Debug)]
pub enum Refusal {
    // an error stands in a value's place; or a check in Setup, where an assignment is missing
    Synthesis(SynthesisError),
    // mode or goal are set after a variable, a combination or a constraint
    SetTooLate,
    // no place for one instance, or one witness, more
    InstancesFull,
    WitnessesFull,
    // too few free index entries, or term places
    IndexFull,
    TermsFull,
    // a term names a variable that is not known, or a constraint's own list
    UnknownVariable { list: usize, term: usize },
    ConstraintList { list: usize, term: usize },
    // the lent tables are not sound
    TablesUnsound,
    // a check where constraints are counted and not kept
    ConstraintsNotKept,
    // a lent table is too short for the answer
    TableTooShort,
    // no constraint more can be counted
    ConstraintsFull,
}

impl Refusal {
    pub fn number(self) -> u8
        ensures { result ≡ (told self).number }
    {
        match self {
            Refusal::Synthesis(error) => error.number(),
            Refusal::SetTooLate => 10,
            Refusal::InstancesFull => 11,
            Refusal::WitnessesFull => 12,
            Refusal::IndexFull => 13,
            Refusal::TermsFull => 14,
            Refusal::UnknownVariable { .. } => 15,
            Refusal::ConstraintList { .. } => 16,
            Refusal::TablesUnsound => 17,
            Refusal::ConstraintsNotKept => 18,
            Refusal::TableTooShort => 19,
            Refusal::ConstraintsFull => 20,
        }
    }
}

// An error in a value's place denies the call.
impl From<SynthesisError> for Refusal {
    ghost from_gives = { λ e r. r ≡ Synthesis e };

    fn from(error: SynthesisError) -> Refusal {
        Refusal::Synthesis(error)
    }
}

impl Variable {
    // a question for each kind, by the names of the Rust
    pub fn is_zero(self) -> bool
        ensures { result ≡ is_zero self }
    {
        matches!(self, Variable::Zero)
    }

    pub fn is_one(self) -> bool
        ensures { result ≡ is_one self }
    {
        matches!(self, Variable::One)
    }

    pub fn is_instance(self) -> bool
        ensures { result ≡ is_instance self }
    {
        matches!(self, Variable::Instance(_))
    }

    pub fn is_witness(self) -> bool
        ensures { result ≡ is_witness self }
    {
        matches!(self, Variable::Witness(_))
    }

    pub fn is_lc(self) -> bool
        ensures { result ≡ is_lc self }
    {
        matches!(self, Variable::SymbolicLc(_))
    }

    pub fn get_lc_index(self) -> Option<LcIndex>
        ensures { result ≡ lc_index self }
    {
        match self {
            Variable::SymbolicLc(index) => Some(index),
            _ => None,
        }
    }

    // The column of a matrix, where the first `witness_offset` are the instances'. None for Zero, for a symbol, and for a number
    // that is no usize.
    pub fn get_index_unchecked(self, witness_offset: usize) -> Option<usize>
        ensures { result ≡ column_of witness_offset self }
    {
        match self {
            Variable::One => Some(0),
            Variable::Instance(i) => Some(i),
            Variable::Witness(i) => witness_offset.checked_add(i),
            _ => None,
        }
    }

    // Zero, One, then instances, witnesses and symbols, each by number: the derived order, by a name whose promise is that
    // it is this one.
    pub fn is_below(self, other: Variable) -> bool
        ensures { result ≡ below self other }
    {
        self < other
    }
}

// Theorems: each is asked for by the contract of a function, and holds of every field that keeps the laws.

#[tactic(auto, using(crate::proofs::Orders::ordered))]
pub fn variables_are_ordered()
    ensures { Ordered }
{}

pub fn compactify_keeps<F: Field>()
    ensures { Compacts F.model }
{}

pub fn lists_are_worth<F: Field>()
    ensures { ListsWorth F.model }
{}

#[tactic(auto, using(crate::proofs::Adds::adds))]
pub fn adding_places<F: Field>()
    ensures { Adds F.model }
{}

#[tactic(auto, using(crate::proofs::Rises::merges_rise_lem))]
pub fn merges_rise<F: Field>()
    ensures { MergesRise F }
{}

#[tactic(auto, using(crate::proofs::Seeks::seeks))]
pub fn seeking_finds<F: Field>()
    ensures { Seeks F }
{}

pub fn evaluation_stands<F: Field>()
    ensures { Evaluates F.model }
{}
