// One call of a run.
ghost use Rattle.std.specs.Prelude.{◌≡◌, List, Option, false, length};
ghost use Rattle.tables.specs.Held.{SamePlaces};
ghost use Rattle.matrices.specs.Writing.{Lent, lent};
ghost use Rattle.calls.specs.Calls.{rooms, as_call, as_answer};
ghost use Rattle.calls.specs.Laws.{while_open, when_finished};
ghost use Rattle.calls.specs.Does.{Does};
ghost use Rattle.constraint_system.specs.Circuit.{circuit as circuit_over};
ghost use Rattle.constraint_system.specs.Finished.{finished as finished_over};
ghost use Rattle.runs.specs.Run.{beside, laid, standing, is_finalize};

use crate::answers::{assigned, done, named, unsatisfied, written};
use calls::{Answer, Call};
use constraint_system::{Cell, ConstraintSystem, FinishedSystem, SynthesisError, Tables};
use field::Field;

// The circuit of a run: open, or finished.
#[derive(Drop, Debug)]
pub enum Circuit {
    Open(ConstraintSystem),
    Finished(FinishedSystem),
}

// The value that a call handed in.
fn handed<F: Field>(value: &Result<F, SynthesisError>) -> Result<F, SynthesisError>
    ensures { result ≡ value.now }
{
    match value {
        Ok(value) => Ok(*value),
        Err(error) => Err(*error),
    }
}

// A call on an open circuit that leaves it open.
fn answer_open<F: Field>(
    system: &mut ConstraintSystem,
    call: &Call<'_, F>,
    tables: &mut Tables<'_, F>,
    work: &mut [Option<F>],
) -> Answer<F>
    requires { is_finalize call.now ≡ false }
    ensures places { SamePlaces tables.old tables.new }
    ensures room { length work.new ≡ length work.old }
    ensures does { (t : Lent F) → let b = laid work.old t in Does F.model (while_open (circuit_over system.old tables.old) b) (as_call (rooms b) call.now) (as_answer t result) (while_open (circuit_over system.new tables.new) (laid work.new t)) }
{
    match call {
        Call::SetMode(mode) => done(system.set_mode(*mode)),
        Call::SetOptimizationGoal(goal) => done(system.set_optimization_goal(*goal)),
        Call::NewInputVariable(value) => named(system.new_input_variable(tables, handed(value))),
        Call::NewWitnessVariable(value) => named(system.new_witness_variable(
            tables,
            handed(value),
        )),
        Call::NewLc(list) => named(system.new_lc(tables, list)),
        Call::EnforceConstraint { a, b, c } => done(system.enforce_constraint(tables, a, b, c)),
        Call::WhichIsUnsatisfied { work: places } => {
            let end = (*places).min(work.len());
            unsatisfied(system.which_is_unsatisfied(tables, &mut work[..end]))
        }
        Call::AssignedValue {
            variable,
            work: places,
        } => {
            let end = (*places).min(work.len());
            assigned(system.assigned_value(tables, *variable, &mut work[..end]))
        }
        Call::Finalize | Call::ToMatrices { .. } => Answer::OutOfPlace,
    }
}

// A call on an open circuit.
fn step_open<F: Field>(
    mut system: ConstraintSystem,
    call: &Call<'_, F>,
    tables: &mut Tables<'_, F>,
    work: &mut [Option<F>],
) -> (Circuit, Answer<F>)
    ensures places { SamePlaces tables.old tables.new }
    ensures room { length work.new ≡ length work.old }
    ensures does { (t : Lent F) → let b = laid work.old t in Does F.model (while_open (circuit_over system tables.old) b) (as_call (rooms b) call.now) (as_answer t result.1) (standing result.0 tables.new (laid work.new t)) }
{
    match call {
        Call::Finalize => match system.finalize(tables) {
            Ok(finished) => (Circuit::Finished(finished), Answer::Done),
            Err((system, refusal)) => (Circuit::Open(system), Answer::Refused(refusal)),
        },
        _ => {
            let answer = answer_open(&mut system, call, tables, work);
            (Circuit::Open(system), answer)
        }
    }
}

// A call on a finished circuit, which stays as it is.
fn answer_finished<F: Field>(
    system: &FinishedSystem,
    call: &Call<'_, F>,
    tables: &Tables<'_, F>,
    cells: &mut [Cell<F>],
    ends: &mut [usize],
) -> Answer<F>
    ensures room { (length cells.new ≡ length cells.old) × (length ends.new ≡ length ends.old) }
    ensures does { (w : List (Option F)) → let b = beside w cells.old ends.old in Does F.model (when_finished (finished_over system.now tables.now) b) (as_call (rooms b) call.now) (as_answer (lent cells.new ends.new) result) (when_finished (finished_over system.now tables.now) (beside w cells.new ends.new)) }
{
    match call {
        Call::WhichIsUnsatisfied { .. } => unsatisfied(system.which_is_unsatisfied(tables)),
        Call::AssignedValue { variable, .. } => assigned(system.assigned_value(tables, *variable)),
        Call::ToMatrices {
            cells: cell_places,
            ends: end_places,
        } => {
            let cell_end = (*cell_places).min(cells.len());
            let ends_end = (*end_places).min(ends.len());
            let cells = &mut cells[..cell_end];
            written(system.to_matrices(tables, cells, &mut ends[..ends_end]))
        }
        _ => Answer::OutOfPlace,
    }
}

// A call on the circuit of a run. One that is out of place does nothing.
pub fn step<F: Field>(
    circuit: Circuit,
    call: &Call<'_, F>,
    tables: &mut Tables<'_, F>,
    work: &mut [Option<F>],
    cells: &mut [Cell<F>],
    ends: &mut [usize],
) -> (Circuit, Answer<F>)
    ensures places { SamePlaces tables.old tables.new }
    ensures room { rooms (beside work.new cells.new ends.new) ≡ rooms (beside work.old cells.old ends.old) }
    ensures does { let b = beside work.old cells.old ends.old in Does F.model (standing circuit tables.old b) (as_call (rooms b) call.now) (as_answer (lent cells.new ends.new) result.1) (standing result.0 tables.new (beside work.new cells.new ends.new)) }
{
    match circuit {
        Circuit::Open(system) => step_open(system, call, tables, work),
        Circuit::Finished(finished) => {
            let answer = answer_finished(&finished, call, tables, cells, ends);
            (Circuit::Finished(finished), answer)
        }
    }
}
