// Checks and questions: what they answer from the tables, over a work table.
ghost use Rattle.std.specs.Prelude.{◌≡◌, length};
ghost use Rattle.std.specs.Option.{option_map};
ghost use Rattle.std.specs.Result.{result_err};
ghost use Rattle.variables.specs.Refusals.{told, answered};
ghost use Rattle.account.specs.Refusals.{first};
ghost use Rattle.tables.specs.Held.{state};
ghost use Rattle.tables.specs.Calls.{is_known_symbol, which_is_unsatisfied_tests, checking, asking};

use crate::calls::should_construct_matrices;
use crate::evaluation::{assignment, fill, first_failing};
use crate::places::entries_of;
use crate::scope::Scope;
use crate::soundness::is_sound;
use account::SynthesisMode;
use field::Field;
use tables::{Counts, Tables};
use terms::value_of;
use variables::{Refusal, SynthesisError, Variable};

// The tests of a check.
fn may_check<F: Field>(counts: &Counts, tables: &Tables<'_, F>, work: usize) -> Result<(), Refusal>
    ensures { first (which_is_unsatisfied_tests (state counts.now tables.now) work) ≡ option_map told (result_err result) }
{
    if !is_sound(counts, tables) {
        return Err(Refusal::TablesUnsound);
    }
    match counts.mode {
        SynthesisMode::Setup => {
            return Err(Refusal::Synthesis(SynthesisError::AssignmentMissing));
        }
        SynthesisMode::Prove {
            construct_matrices: false,
        } if counts.constraints != 0 => return Err(Refusal::ConstraintsNotKept),
        _ => {}
    }
    if work < counts.entries {
        return Err(Refusal::TableTooShort);
    }
    Ok(())
}

// The first constraint that fails, or none.
pub fn which_is_unsatisfied<F: Field>(
    counts: &Counts,
    tables: &Tables<'_, F>,
    work: &mut [Option<F>],
) -> Result<Option<usize>, Refusal>
    ensures { checking F.model (state counts.now tables.now) work.old ≡ record { answer = answered result; state = work.new } }
{
    may_check(counts, tables, work.len())?;
    fill(counts, tables, work);
    if !should_construct_matrices(counts) {
        return Ok(None);
    }
    let entries = entries_of(counts, tables.index);
    Ok(first_failing(entries, &work[..counts.entries]))
}

// Whether a variable is a symbol that may be named at the next free entry.
fn is_known_symbol<F: Field>(counts: &Counts, tables: &Tables<'_, F>, variable: Variable) -> bool
    ensures { result ≡ is_known_symbol (state counts.now tables.now) variable }
{
    let scope = Scope::at_next_entry(counts, tables.index);
    variable.is_lc() && scope.check_variable(variable).is_ok()
}

// The value of a variable, or none. The work table is for a known symbol alone.
pub fn assigned_value<F: Field>(
    counts: &Counts,
    tables: &Tables<'_, F>,
    variable: Variable,
    work: &mut [Option<F>],
) -> Result<Option<F>, Refusal>
    ensures { asking F.model (state counts.now tables.now) variable work.old ≡ record { answer = answered result; state = work.new } }
{
    if !is_sound(counts, tables) {
        return Err(Refusal::TablesUnsound);
    }
    let kept = assignment(counts, tables);
    if !is_known_symbol(counts, tables, variable) {
        return Ok(kept.value(variable));
    }
    if work.len() < counts.entries {
        return Err(Refusal::TableTooShort);
    }
    fill(counts, tables, work);
    Ok(value_of(&kept, &work[..counts.entries], variable))
}
