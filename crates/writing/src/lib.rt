#![tactic(auto)]

// The matrices of a finished circuit, written of its numbers and lent tables, for the crates above alone: some ask something of their caller.
mod cells;
mod lists;
mod writing;

pub use cells::{cell_of, count_cells, write_cells};
pub use lists::FinishedLists;
pub use writing::to_matrices;
