// What comes of a circuit, as text: an answer for each call, then the counts and the kept values that are left, and the rows of the matrices
// where these were written; all with `;` between them.
use crate::number::Number;
use crate::room::Room;
use runs::{Answer, Cell, Circuit, ConstraintMatrices};
use std::alloc::{AllocError, Global};
use std::fmt::Display;

// A value or a number, or the word none.
fn perhaps<T: Display + Copy>(text: &mut String, value: Option<T>) -> Result<(), AllocError> {
    match value {
        Some(value) => write!(text, "{value}"),
        None => text.push_str("none"),
    }
}

// The counts: instances, witnesses and rows, and the cells of A, B and C.
fn written(text: &mut String, matrices: Option<ConstraintMatrices>) -> Result<(), AllocError> {
    let Some(matrices) = matrices else {
        return text.push_str("none");
    };
    let instances = matrices.num_instance_variables;
    let witnesses = matrices.num_witness_variables;
    let rows = matrices.num_constraints;
    let (a, b, c) = matrices.num_non_zero;
    write!(text, "{instances} {witnesses} {rows} {a} {b} {c}")
}

fn answer<F: Number>(text: &mut String, answer: Answer<F>) -> Result<(), AllocError> {
    match answer {
        Answer::Done => text.push_str("done"),
        Answer::Named(variable) => write!(text, "{variable}"),
        Answer::Unsatisfied(row) => perhaps(text, row),
        Answer::Assigned(value) => perhaps(text, value),
        Answer::Written(matrices) => written(text, matrices),
        Answer::Refused(refusal) => write!(text, "refused={}", refusal.number()),
        Answer::OutOfPlace => text.push_str("out of place"),
    }
}

// The counts of a circuit, open or finished.
#[derive(Drop)]
struct Counts {
    state: &'static str,
    setup: bool,
    instances: usize,
    witnesses: usize,
    constraints: usize,
    entries: usize,
}

impl From<&Circuit> for Counts {
    fn from(circuit: &Circuit) -> Counts {
        match circuit {
            Circuit::Open(system) => Counts {
                state: "open",
                setup: system.is_in_setup_mode(),
                instances: system.num_instance_variables(),
                witnesses: system.num_witness_variables(),
                constraints: system.num_constraints(),
                entries: system.num_linear_combinations(),
            },
            Circuit::Finished(finished) => Counts {
                state: "finished",
                setup: finished.is_in_setup_mode(),
                instances: finished.num_instance_variables(),
                witnesses: finished.num_witness_variables(),
                constraints: finished.num_constraints(),
                entries: finished.num_linear_combinations(),
            },
        }
    }
}

impl Counts {
    fn show(&self, text: &mut String) -> Result<(), AllocError> {
        let state = self.state;
        let instances = self.instances;
        let witnesses = self.witnesses;
        let constraints = self.constraints;
        let entries = self.entries;
        write!(
            text,
            "{state}={instances} {witnesses} {constraints} {entries}"
        )
    }

    // In Setup the constant one alone is kept.
    fn kept_instances(&self) -> usize {
        if self.setup { 1 } else { self.instances }
    }

    fn kept_witnesses(&self) -> usize {
        if self.setup { 0 } else { self.witnesses }
    }
}

// The first values of a table.
fn values<F: Number>(text: &mut String, values: &[F], count: usize) -> Result<(), AllocError> {
    for (i, value) in values.iter().take(count).enumerate() {
        if i > 0 {
            text.push(' ')?;
        }
        write!(text, "{value}")?;
    }
    Ok(())
}

// A row in brackets, each cell as number and column.
fn row<F: Number>(text: &mut String, cells: &[Cell<F>]) -> Result<(), AllocError> {
    text.push('[')?;
    for (i, cell) in cells.iter().enumerate() {
        if i > 0 {
            text.push(' ')?;
        }
        write!(text, "{}@{}", cell.number, cell.column)?;
    }
    text.push(']')
}

// The rows that end so: the cells up to each end, from the one before it on, of which the first is `start`. Answers the last.
fn matrix<F: Number>(
    text: &mut String,
    cells: &[Cell<F>],
    start: usize,
    ends: &[usize],
) -> Result<usize, AllocError> {
    let mut start = start;
    for end in ends {
        if let Some(cells) = cells.get(start..*end) {
            row(text, cells)?;
        }
        start = *end;
    }
    Ok(start)
}

// The rows of the three matrices, so many of each.
fn rows<F: Number>(text: &mut String, room: &Room<F>, count: usize) -> Result<(), AllocError> {
    let cells = room.cells.as_slice();
    let ends = room.ends.as_slice();
    let mut start = 0;
    for (at, name) in ["a", "b", "c"].iter().enumerate() {
        write!(text, ";{name}=")?;
        let first = count.saturating_mul(at);
        if let Some(ends) = ends.get(first..first.saturating_add(count)) {
            start = matrix(text, cells, start, ends)?;
        }
    }
    Ok(())
}

// What the last writing answered.
fn last_written<F: Number>(answers: &[Answer<F>]) -> Option<ConstraintMatrices> {
    let mut last = None;
    for answer in answers {
        if let Answer::Written(matrices) = answer {
            last = *matrices;
        }
    }
    last
}

pub(crate) fn whole<F: Number>(
    heap: Global,
    room: &Room<F>,
    answers: &[Answer<F>],
    circuit: &Circuit,
) -> Result<String, AllocError> {
    let mut text = String::new(heap);
    for given in answers {
        answer(&mut text, *given)?;
        text.push(';')?;
    }
    let counts = Counts::from(circuit);
    counts.show(&mut text)?;
    text.push_str(";instances=")?;
    values(
        &mut text,
        room.instances.as_slice(),
        counts.kept_instances(),
    )?;
    text.push_str(";witnesses=")?;
    values(
        &mut text,
        room.witnesses.as_slice(),
        counts.kept_witnesses(),
    )?;
    if let Some(matrices) = last_written(answers) {
        rows(&mut text, room, matrices.num_constraints)?;
    }
    Ok(text)
}
