// The whole run.
ghost use Rattle.std.specs.Prelude.{◌≡◌, IfOk, IsErr, length, drop, map};
ghost use Rattle.tables.specs.Held.{held, lengths, SamePlaces};
ghost use Rattle.account.specs.Promise.{Promised};
ghost use Rattle.matrices.specs.Writing.{lent};
ghost use Rattle.tables.specs.Calls.{opened_in};
ghost use Rattle.calls.specs.Calls.{rooms, as_call, as_answer};
ghost use Rattle.calls.specs.Does.{DoAll};
ghost use Rattle.calls.specs.Laws.{while_open};
ghost use Rattle.calls.specs.Promise.{Refuses, Shows};
ghost use Rattle.runs.specs.Run.{beside, standing, answers_to, log, Opens};

use crate::steps::{Circuit, step};
use calls::{Answer, Call};
use constraint_system::{Cell, ConstraintSystem, Refusal, Tables};
use field::Field;

// Opens a circuit over the lent tables, whatever they hold, and makes the calls on it, in their order, refused ones included. Each call's
// answer is written into the table of answers. Gives the circuit back, open or finished.
pub fn run<F: Field>(
    calls: &[Call<'_, F>],
    tables: &mut Tables<'_, F>,
    work: &mut [Option<F>],
    cells: &mut [Cell<F>],
    ends: &mut [usize],
    answers: &mut [Answer<F>],
) -> Result<Circuit, Refusal>
    ensures places { SamePlaces tables.old tables.new }
    ensures opens { Opens calls.now (held tables.old) (beside work.old cells.old ends.old) answers.old result (held tables.new) (beside work.new cells.new ends.new) answers.new }
    ensures does { IfOk result (λ circuit. DoAll F.model (while_open (opened_in F.model (held tables.old)) (beside work.old cells.old ends.old)) (map (as_call (rooms (beside work.old cells.old ends.old))) calls.now)
        (map (as_answer (lent cells.new ends.new)) (answers_to calls.now answers.new)) (standing circuit tables.new (beside work.new cells.new ends.new))) }
    ensures promised { IfOk result (λ _. Promised F.model (log calls.now (beside work.old cells.old ends.old) (lent cells.new ends.new) answers.new)) }
    ensures refused { IfOk result (λ _. Refuses F.model (lengths (held tables.old)) (rooms (beside work.old cells.old ends.old)) (lent cells.new ends.new) calls.now (answers_to calls.now answers.new)) }
    ensures shows { IfOk result (λ circuit. Shows F.model (held tables.old) (beside work.old cells.old ends.old) (log calls.now (beside work.old cells.old ends.old) (lent cells.new ends.new) answers.new) (standing circuit tables.new (beside work.new cells.new ends.new))) }
    ensures beyond { drop (length calls.now) answers.new ≡ drop (length calls.now) answers.old }
{
    if answers.len() < calls.len() {
        return Err(Refusal::TableTooShort);
    }
    let mut circuit = Circuit::Open(ConstraintSystem::new(tables)?);
    for i in 0..calls.len() {
        let (next, answer) = step(circuit, &calls[i], tables, work, cells, ends);
        circuit = next;
        answers[i] = answer;
    }
    Ok(circuit)
}
