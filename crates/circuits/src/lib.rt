#![tactic(auto)]

// Calls on the numbers and the tables of a circuit, for the crates above alone: some ask something of their caller.
ghost use Rattle.std.specs.Prelude.{◌≡◌, ◌+◌, ◌<◌, ◌≤◌, length};
ghost use Rattle.tables.specs.Held.{held, state, with_list, SamePlaces};

mod calls;
mod checks;
mod evaluation;
mod places;
mod scope;
mod soundness;

use account::Mark;
pub use calls::{
    enforce_constraint, is_in_setup_mode, new_input_variable, new_lc, new_witness_variable, open,
    set_mode, set_optimization_goal, should_construct_matrices, value_places,
};
pub use checks::{assigned_value, which_is_unsatisfied};
pub use evaluation::{assignment, fill, first_failing};
use field::Field;
pub use places::{LIMIT, capacity, entries_of, in_use};
pub use scope::{NameFault, Scope, TermFault};
pub use soundness::is_sound;
use tables::{Counts, Entry, Tables};
use variables::Term;

// Keeps one list more.
pub fn append<F: Field>(
    counts: &mut Counts,
    tables: &mut Tables<'_, F>,
    mark: Mark,
    list: &[Term<F>],
)
    requires entry { counts.old.entries < length tables.old.index.now }
    requires places { counts.old.terms + length list.now ≤ length tables.old.terms.now }
    ensures places { SamePlaces tables.old tables.new }
    ensures does { state counts.new tables.new ≡ with_list mark list.now (state counts.old tables.old) }
{
    let start = counts.terms;
    let end = start + list.len();
    tables.terms[start..end].copy_from_slice(list);
    tables.index[counts.entries] = Entry::new(mark, start, list.len());
    counts.entries += 1;
    counts.terms = end;
}
