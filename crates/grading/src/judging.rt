// A run of a claim's calls, and what its answers say.
ghost use Rattle.std.specs.Prelude.{◌≡◌, ◌≤◌, Some, None, Err, IfOk, length, drop, map, take};
ghost use Rattle.variables.specs.Refusals.{Told, answered};
ghost use Rattle.tables.specs.Held.{held, lengths, SamePlaces};
ghost use Rattle.account.specs.Promise.{Promised};
ghost use Rattle.account.specs.declared.OptimizationGoal.{OptimizationGoal as Goal};
ghost use Rattle.matrices.specs.Writing.{lent};
ghost use Rattle.tables.specs.Calls.{opened_in};
ghost use Rattle.calls.specs.Calls.{rooms, as_call, as_answer};
ghost use Rattle.calls.specs.Does.{DoAll};
ghost use Rattle.calls.specs.Laws.{while_open};
ghost use Rattle.runs.specs.declared.steps.Circuit.{Circuit as CircuitLeft};
ghost use Rattle.calls.specs.Promise.{Refuses, Shows};
ghost use Rattle.runs.specs.Run.{beside, standing, answers_to, log};
ghost use Rattle.claims.specs.Grades.{claim_calls};
ghost use Rattle.claims.specs.declared.Wall.{Wall};
ghost use Rattle.claims.specs.declared.Claim.{Claim};
ghost use Rattle.claims.specs.Verdicts.{refusal_in, from_end, row_in, counts_in, reading_in, refused_at_once, claim_account, Said};
ghost use Rattle.grading.specs.Reading.{read_by};

use calls::{Answer, Call};
use field::Field;
use matrices::{Cell, ConstraintMatrices};
use runs::{Circuit, run};
use tables::Tables;
use variables::Refusal;

// What the answers to a claim's calls say: which constraint the check names before finalising, and which after it, none where all hold, and
// the counts of the matrices that were written; with the circuit.
#[derive(Drop, Debug)]
pub struct Verdict {
    pub before: Option<usize>,
    pub after: Option<usize>,
    pub matrices: Option<ConstraintMatrices>,
    pub circuit: Circuit,
}

// The refusal of the first call that was refused, if one was.
fn find_refusal<F: Field>(answers: &[Answer<F>]) -> Result<(), Refusal>
    ensures { result ≡ refusal_in answers.now }
{
    for answer in answers {
        if let Answer::Refused(refusal) = answer {
            return Err(*refusal);
        }
    }
    Ok(())
}

// The row that a check names whose answer is so many places before the end.
fn row_from_end<F: Field>(answers: &[Answer<F>], back: usize) -> Option<usize>
    ensures { result ≡ row_in (from_end answers.now back) }
{
    match answers.get(answers.len().saturating_sub(back)) {
        Some(Answer::Unsatisfied(row)) => *row,
        _ => None,
    }
}

// The counts of the matrices that the last call wrote.
fn last_counts<F: Field>(answers: &[Answer<F>]) -> Option<ConstraintMatrices>
    ensures { result ≡ counts_in (from_end answers.now 1) }
{
    match answers.get(answers.len().saturating_sub(1)) {
        Some(Answer::Written(counts)) => *counts,
        _ => None,
    }
}

// What the answers to so many calls say.
fn read_answers<F: Field>(
    circuit: Circuit,
    answers: &[Answer<F>],
    count: usize,
) -> Result<Verdict, Refusal>
    requires { count ≤ length answers.now }
    ensures read { read_by result ≡ reading_in (take count answers.now) }
    ensures circuit { IfOk result (λ v. v.circuit ≡ circuit) }
{
    let answers = &answers[..count];
    find_refusal(answers)?;
    Ok(Verdict {
        before: row_from_end(answers, 4),
        after: row_from_end(answers, 2),
        matrices: last_counts(answers),
        circuit,
    })
}

// Makes the calls of a claim in a run of its own over the lent tables, and reads the verdict of their answers. The refusal of the first call
// that is refused is the answer's, where one is.
pub fn judge<F: Field>(
    calls: &[Call<'_, F>],
    tables: &mut Tables<'_, F>,
    work: &mut [Option<F>],
    cells: &mut [Cell<F>],
    ends: &mut [usize],
    answers: &mut [Answer<F>],
) -> Result<Verdict, Refusal>
    ensures places { SamePlaces tables.old tables.new }
    ensures refused { (r : Told) → refused_at_once calls.now answers.old (held tables.old) ≡ Some r
        → (answered result ≡ Err r) × (held tables.new ≡ held tables.old) × (beside work.new cells.new ends.new ≡ beside work.old cells.old ends.old) × (answers.new ≡ answers.old) }
    ensures read { refused_at_once calls.now answers.old (held tables.old) ≡ None → read_by result ≡ reading_in (answers_to calls.now answers.new) }
    ensures promised { refused_at_once calls.now answers.old (held tables.old) ≡ None → Promised F.model (log calls.now (beside work.old cells.old ends.old) (lent cells.new ends.new) answers.new) }
    ensures refuses { refused_at_once calls.now answers.old (held tables.old) ≡ None
        → Refuses F.model (lengths (held tables.old)) (rooms (beside work.old cells.old ends.old)) (lent cells.new ends.new) calls.now (answers_to calls.now answers.new) }
    ensures leaves { refused_at_once calls.now answers.old (held tables.old) ≡ None → (left : CircuitLeft)
        × (DoAll F.model (while_open (opened_in F.model (held tables.old)) (beside work.old cells.old ends.old)) (map (as_call (rooms (beside work.old cells.old ends.old))) calls.now)
        (map (as_answer (lent cells.new ends.new)) (answers_to calls.now answers.new)) (standing left tables.new (beside work.new cells.new ends.new))
        × Shows F.model (held tables.old) (beside work.old cells.old ends.old) (log calls.now (beside work.old cells.old ends.old) (lent cells.new ends.new) answers.new)
        (standing left tables.new (beside work.new cells.new ends.new))
        × IfOk result (λ v. v.circuit ≡ left)) }
    ensures beyond { drop (length calls.now) answers.new ≡ drop (length calls.now) answers.old }
    ensures judged { let r = rooms (beside work.old cells.old ends.old) in (goal : Goal) (wall : Wall F) (claim : Claim F) → map (as_call r) calls.now ≡ claim_calls F.model r goal wall claim
        → IfOk result (λ v. Said F.model (lent cells.new ends.new) wall claim (claim_account F.model r goal wall claim) v.before v.after v.matrices) }
{
    let circuit = run(calls, tables, work, cells, ends, answers)?;
    read_answers(circuit, answers, calls.len())
}
