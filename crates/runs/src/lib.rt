#![tactic(auto)]

// A whole run: a circuit is opened over lent tables, and any list of calls is made on it, in any order. The contract of `run` has the main
// promise.
mod answers;
mod steps;
mod whole;

pub use calls::{Answer, Call};
pub use constraint_system::{
    Cell, ConstraintMatrices, ConstraintSystem, Entry, FinishedSystem, LcIndex, Mark,
    OptimizationGoal, Refusal, SynthesisError, SynthesisMode, Tables, Term, Variable,
};
pub use steps::Circuit;
pub use whole::run;
