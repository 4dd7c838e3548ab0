// Checks and questions of a finished circuit: what they answer from its finished lists and kept values.
ghost use Rattle.std.specs.Prelude.{◌≡◌, true, [], map, length, slice_index_or};
ghost use Rattle.std.specs.List.{list_all};
ghost use Rattle.std.specs.Option.{option_map};
ghost use Rattle.std.specs.Result.{result_err};
ghost use Rattle.variables.specs.Refusals.{told, answered};
ghost use Rattle.variables.specs.Evaluate.{read, evaluated};
ghost use Rattle.account.specs.Rows.{rows, each};
ghost use Rattle.account.specs.Evaluate.{or_zero, failing};
ghost use Rattle.account.specs.Refusals.{first};
ghost use Rattle.tables.specs.Held.{state};
ghost use Rattle.finishing.specs.Sound.{finished_in, finished_fits};
ghost use Rattle.finishing.specs.Checks.{check_tests, checking, asking};

use crate::soundness::is_sound;
use account::{Mark, SynthesisMode};
use circuits::{assignment, entries_of, should_construct_matrices};
use field::Field;
use tables::{Counts, Entry, Tables};
use terms::evaluate;
use variables::{Assignment, Refusal, SynthesisError, Term, Variable};

// The tests of a check.
fn may_check<F: Field>(counts: &Counts, tables: &Tables<'_, F>) -> Result<(), Refusal>
    ensures { first (check_tests (state counts.now tables.now)) ≡ option_map told (result_err result) }
{
    if !is_sound(counts, tables) {
        return Err(Refusal::TablesUnsound);
    }
    match counts.mode {
        SynthesisMode::Setup => Err(Refusal::Synthesis(SynthesisError::AssignmentMissing)),
        SynthesisMode::Prove {
            construct_matrices: false,
        } if counts.constraints != 0 => Err(Refusal::ConstraintsNotKept),
        _ => Ok(()),
    }
}

// What the finished list of entry `k` is worked out to, or zero where there is no such entry.
fn worth_at<F: Field>(
    terms: &[Term<F>],
    entries: &[Entry],
    assignment: &Assignment<F>,
    k: usize,
) -> F
    requires { list_all (finished_fits (length terms.now)) entries.now ≡ true }
    ensures { result ≡ or_zero F.model (evaluated F.model (read F.model assignment.now.instances.now assignment.now.witnesses.now []) (slice_index_or (map (finished_in terms.now) entries.now) k [])) }
{
    let Some(entry) = entries.get(k) else {
        return F::zero();
    };
    let end = entry.finished_start + entry.finished_len;
    let no_symbols = [];
    evaluate(&terms[entry.finished_start..end], assignment, &no_symbols).unwrap_or(F::zero())
}

// The first row that fails: its three lists are those of an entry marked A and of the two after it.
fn first_failing_row<F: Field>(
    terms: &[Term<F>],
    entries: &[Entry],
    assignment: &Assignment<F>,
) -> Option<usize>
    requires { list_all (finished_fits (length terms.now)) entries.now ≡ true }
    ensures { result ≡ failing F.model (map (each (λ ts. or_zero F.model (evaluated F.model (read F.model assignment.now.instances.now assignment.now.witnesses.now []) ts))) (rows [] (map (λ e. e.mark) entries.now) (map (finished_in terms.now) entries.now))) }
{
    let mut row = 0;
    for (k, entry) in entries.iter().enumerate() {
        if entry.mark == Mark::A {
            let b = worth_at(terms, entries, assignment, k + 1);
            let product = worth_at(terms, entries, assignment, k).product(b);
            if !product.same(worth_at(terms, entries, assignment, k + 2)) {
                return Some(row);
            }
            row += 1;
        }
    }
    None
}

// The first row that fails at the kept values, or none.
pub fn which_is_unsatisfied<F: Field>(
    counts: &Counts,
    tables: &Tables<'_, F>,
) -> Result<Option<usize>, Refusal>
    ensures { checking F.model (state counts.now tables.now) ≡ answered result }
{
    may_check(counts, tables)?;
    if !should_construct_matrices(counts) {
        return Ok(None);
    }
    let entries = entries_of(counts, tables.index);
    let assignment = assignment(counts, tables);
    Ok(first_failing_row(tables.terms, entries, &assignment))
}

// The value of a variable: none where it is not kept, and none for a symbol.
pub fn assigned_value<F: Field>(
    counts: &Counts,
    tables: &Tables<'_, F>,
    variable: Variable,
) -> Result<Option<F>, Refusal>
    ensures { asking F.model (state counts.now tables.now) variable ≡ answered result }
{
    if !is_sound(counts, tables) {
        return Err(Refusal::TablesUnsound);
    }
    Ok(assignment(counts, tables).value(variable))
}
