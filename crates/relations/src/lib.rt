#![tactic(auto)]

// Linear combinations over lent places: variables, terms, the list under work, and what is proved of lists. The names follow module r1cs
// of ark-relations.
mod impl_lc;
mod text;

pub use impl_lc::LinearCombination;
pub use variables::{Assignment, LcIndex, Refusal, SynthesisError, Term, Variable};
// the theorems
pub use variables::{
    adding_places, compactify_keeps, evaluation_stands, lists_are_worth, merges_rise,
    seeking_finds, variables_are_ordered,
};
