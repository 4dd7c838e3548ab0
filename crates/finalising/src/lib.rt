#![tactic(auto)]

// Finalising and the calls on a finished circuit, over its numbers and lent tables, for the crates above alone: some ask something of their
// caller.
mod checks;
mod expansion;
mod finalizing;
mod outlining;
mod rules;
mod soundness;
mod steps;
mod uses;

pub use checks::{assigned_value, which_is_unsatisfied};
pub use finalizing::finalize;
pub use rules::{ForConstraints, ForNone, ForWeight, OutliningRule};
pub use soundness::is_sound;
