#![tactic(auto)]

// A circuit over lent tables: its variables, combinations and constraints are named by calls, and checked at the kept values. The names
// follow module r1cs of ark-relations.
mod constraint_system;
mod finished_system;

pub use account::{Mark, OptimizationGoal, SynthesisMode};
pub use constraint_system::ConstraintSystem;
pub use finished_system::FinishedSystem;
pub use matrices::{Cell, ConstraintMatrices};
pub use tables::{Entry, Tables};
pub use variables::{LcIndex, Refusal, SynthesisError, Term, Variable};
