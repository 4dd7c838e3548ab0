#![tactic(auto)]

// Reads a run of wall-thickness readings, a number of micrometres to a line, and prints the smoothing sum of each window of three: the
// linear combination and what it is worth, over p31. Then it grades the wall, and checks the grade in a circuit: once over the log, and
// once over the log with a shallow pit that was not claimed. Then it makes that circuit towards each goal, finalises it, prints the finished lists
// and the matrices, and checks the claim before and after. Each circuit is one run of calls. Last it prints the smoothing sums over gf8 for the
// bytes of the log.
use field::Field;
use gf8::Gf8;
use grading::{Claim, Verdict, Wall, claim_calls, claim_terms, grade, judge};
use p31::P31;
use relations::{LinearCombination, Refusal, Term};
use runs::{
    Answer, Call, Cell, Circuit, ConstraintMatrices, Entry, FinishedSystem, Mark, OptimizationGoal,
    Tables,
};
use smoothing::smooth;
use std::alloc::{AllocError, Global};
use std::fmt::Display;
use std::io::Read;

const WIDTH: usize = 3;
// What a window sums to where the wall is whole: three times the nominal 9800 micrometres.
const WHOLE: u32 = 29400;
// Which reading the pit is at.
const PIT: usize = 3;
// How deep the pit is, in micrometres.
const DEPTH: u32 = 25;

fn show_windows<F: Field + Display>(rt: &HostRuntime, readings: &[F]) -> anyhow::Result<()> {
    let mut places = vec![in rt.alloc(); Term::default(); WIDTH]?;
    for first in 0..readings.len() {
        match smooth(readings, first, WIDTH, places.as_mut_slice()) {
            Ok(Some(worth)) => {
                let list = LinearCombination::whole(places.as_mut_slice());
                println!(rt; "window={first} lc={list} worth={worth}")?;
            }
            Ok(None) => {}
            Err(refusal) => println!(rt; "refused={}", refusal.number())?,
        }
    }
    Ok(())
}

// What is lent to a run: the tables of its circuit, and beside them work places, cells, row ends and places for answers.
#[derive(Drop)]
struct Places {
    terms: Vec<Term<P31>>,
    index: Vec<Entry>,
    instances: Vec<P31>,
    witnesses: Vec<P31>,
    work: Vec<Option<P31>>,
    cells: Vec<Cell<P31>>,
    ends: Vec<usize>,
    answers: Vec<Answer<P31>>,
}

impl Places {
    // Places that suffice for a claim of so many readings, finalised too. Of each window three lists are named and three constrained, which
    // have ten terms together, and no more than twenty as finished, but that the total of the windows so far has one more for each of them.
    // Each cell is one of these terms, and each row end one of three lists of a row.
    fn for_readings(heap: Global, count: usize) -> Result<Places, AllocError> {
        let lists = count.saturating_mul(15).saturating_add(10);
        let totals = count.saturating_mul(count);
        let terms = count
            .saturating_mul(30)
            .saturating_add(10)
            .saturating_add(totals);
        let empty = Cell {
            number: P31::zero(),
            column: 0,
        };
        Ok(Places {
            terms: vec![in heap; Term::default(); terms]?,
            index: vec![in heap; Entry::new(Mark::Plain, 0, 0); lists]?,
            instances: vec![in heap; P31::zero(); 2]?,
            witnesses: vec![in heap; P31::zero(); count.saturating_mul(5).saturating_add(2)]?,
            work: vec![in heap; None; lists]?,
            cells: vec![in heap; empty; terms]?,
            ends: vec![in heap; 0usize; lists]?,
            answers: vec![in heap; Answer::Done; calls_for(count)]?,
        })
    }

    // Makes the calls of a claim in one run, and reads the verdict. The finished lists then lie in the terms, and the matrices in the cells.
    fn judge(&mut self, calls: &[Call<'_, P31>]) -> Result<Verdict, Refusal> {
        let mut tables = Tables {
            terms: self.terms.as_mut_slice(),
            index: self.index.as_mut_slice(),
            instances: self.instances.as_mut_slice(),
            witnesses: self.witnesses.as_mut_slice(),
        };
        let work = self.work.as_mut_slice();
        let cells = self.cells.as_mut_slice();
        let ends = self.ends.as_mut_slice();
        judge(
            calls,
            &mut tables,
            work,
            cells,
            ends,
            self.answers.as_mut_slice(),
        )
    }
}

// Places for the calls of a claim of so many readings: one for each reading, five for each window, and seven more.
fn calls_for(count: usize) -> usize {
    count.saturating_mul(6).saturating_add(7)
}

// Lays the calls of a claim, and has them judged in one run.
fn judge_claim(
    heap: Global,
    places: &mut Places,
    goal: OptimizationGoal,
    wall: &Wall<P31>,
    claim: &Claim<P31>,
) -> Result<Result<Verdict, Refusal>, AllocError> {
    let count = wall.readings.len();
    let room = count.saturating_mul(9).saturating_add(3);
    let mut terms = vec![in heap; Term::default(); room]?;
    if let Err(refusal) = claim_terms(wall, terms.as_mut_slice()) {
        return Ok(Err(refusal));
    }
    let mut calls = vec![in heap; Call::Finalize; calls_for(count)]?;
    match claim_calls(goal, wall, claim, terms.as_slice(), calls.as_mut_slice()) {
        Ok(count) => {
            calls.truncate(count);
            Ok(places.judge(calls.as_slice()))
        }
        Err(refusal) => Ok(Err(refusal)),
    }
}

// The first constraint that fails, or none.
fn show_first(rt: &HostRuntime, name: &str, first: Option<usize>) -> anyhow::Result<()> {
    match first {
        Some(first) => println!(rt; "{name}={first}")?,
        None => println!(rt; "{name}=none")?,
    }
    Ok(())
}

fn show_checks(rt: &HostRuntime, verdict: &Verdict) -> anyhow::Result<()> {
    show_first(rt, "unsatisfied_before", verdict.before)?;
    show_first(rt, "unsatisfied_after", verdict.after)
}

// What the check says before finalising.
fn show_check(rt: &HostRuntime, wall: &Wall<P31>, claim: &Claim<P31>) -> anyhow::Result<()> {
    let heap = rt.alloc();
    let mut places = Places::for_readings(heap, wall.readings.len())?;
    match judge_claim(heap, &mut places, OptimizationGoal::None, wall, claim)? {
        Ok(verdict) => show_first(rt, "unsatisfied", verdict.before)?,
        Err(refusal) => println!(rt; "refused={}", refusal.number())?,
    }
    Ok(())
}

fn mark_name(mark: Mark) -> &'static str {
    match mark {
        Mark::Plain => "plain",
        Mark::A => "a",
        Mark::B => "b",
        Mark::C => "c",
    }
}

// The counts of a finished circuit, and the finished list of each entry in use.
fn show_circuit(rt: &HostRuntime, circuit: &FinishedSystem, places: &Places) -> anyhow::Result<()> {
    println!(rt; "instance={}", circuit.num_instance_variables())?;
    println!(rt; "witness={}", circuit.num_witness_variables())?;
    println!(rt; "constraints={}", circuit.num_constraints())?;
    let used = circuit.num_linear_combinations();
    for (k, entry) in places.index.iter().take(used).enumerate() {
        let behind = places.terms.iter().skip(entry.finished_start);
        let finished = behind.take(entry.finished_len).copied();
        let mut list: Vec<Term<P31>> = finished.collect(rt.alloc())?;
        let mark = mark_name(entry.mark);
        let lc = LinearCombination::whole(list.as_mut_slice());
        println!(rt; "entry={k} mark={mark} lc={lc}")?;
    }
    Ok(())
}

// The cells of one row of a matrix, behind its letter.
fn show_row(rt: &HostRuntime, letter: &str, cells: &[Cell<P31>]) -> anyhow::Result<()> {
    print!(rt; "{letter}=")?;
    for (k, cell) in cells.iter().enumerate() {
        if k > 0 {
            print!(rt; " ")?;
        }
        print!(rt; "{}@{}", cell.number, cell.column)?;
    }
    println!(rt; "")?;
    Ok(())
}

// Row `at` of the rows of A, B and C together, which lie one after the other.
fn show_row_at(rt: &HostRuntime, letter: &str, at: usize, places: &Places) -> anyhow::Result<()> {
    let start = match at.checked_sub(1) {
        Some(before) => places.ends.get(before).copied().unwrap_or(0),
        None => 0,
    };
    let end = places.ends.get(at).copied().unwrap_or(start);
    let cells = places.cells.as_slice();
    show_row(rt, letter, cells.get(start..end).unwrap_or(&[]))
}

// How many cells each matrix has, and its rows, of which those of A, of B and of C stand under one another.
fn show_matrices(
    rt: &HostRuntime,
    matrices: &ConstraintMatrices,
    places: &Places,
) -> anyhow::Result<()> {
    let (a, b, c) = matrices.num_non_zero;
    println!(rt; "a_nonzero={a}")?;
    println!(rt; "b_nonzero={b}")?;
    println!(rt; "c_nonzero={c}")?;
    let rows = matrices.num_constraints;
    for row in 0..rows {
        show_row_at(rt, "a", row, places)?;
        show_row_at(rt, "b", row.saturating_add(rows), places)?;
        show_row_at(
            rt,
            "c",
            row.saturating_add(rows).saturating_add(rows),
            places,
        )?;
    }
    Ok(())
}

// What comes of a claim's run: the finished circuit, its matrices, and the two checks.
fn show_verdict(rt: &HostRuntime, verdict: &Verdict, places: &Places) -> anyhow::Result<()> {
    if let Circuit::Finished(circuit) = &verdict.circuit {
        show_circuit(rt, circuit, places)?;
    }
    if let Some(matrices) = &verdict.matrices {
        show_matrices(rt, matrices, places)?;
    }
    show_checks(rt, verdict)
}

fn show_finalized(
    rt: &HostRuntime,
    goal: OptimizationGoal,
    wall: &Wall<P31>,
    claim: &Claim<P31>,
) -> anyhow::Result<()> {
    let heap = rt.alloc();
    let mut places = Places::for_readings(heap, wall.readings.len())?;
    match judge_claim(heap, &mut places, goal, wall, claim)? {
        Ok(verdict) => show_verdict(rt, &verdict, &places)?,
        Err(refusal) => println!(rt; "refused={}", refusal.number())?,
    }
    Ok(())
}

fn show_goals(rt: &HostRuntime, wall: &Wall<P31>, claim: &Claim<P31>) -> anyhow::Result<()> {
    println!(rt; "goal=none")?;
    show_finalized(rt, OptimizationGoal::None, wall, claim)?;
    println!(rt; "goal=constraints")?;
    show_finalized(rt, OptimizationGoal::Constraints, wall, claim)?;
    println!(rt; "goal=weight")?;
    show_finalized(rt, OptimizationGoal::Weight, wall, claim)
}

// The two checks alone, under goal Weight.
fn show_weighed(rt: &HostRuntime, wall: &Wall<P31>, claim: &Claim<P31>) -> anyhow::Result<()> {
    let heap = rt.alloc();
    let mut places = Places::for_readings(heap, wall.readings.len())?;
    match judge_claim(heap, &mut places, OptimizationGoal::Weight, wall, claim)? {
        Ok(verdict) => show_checks(rt, &verdict)?,
        Err(refusal) => println!(rt; "refused={}", refusal.number())?,
    }
    Ok(())
}

// The readings with that at `PIT` lower than in the log, if there is one.
fn with_pit(heap: Global, readings: &[P31]) -> Result<Option<Vec<P31>>, AllocError> {
    let mut pitted: Vec<P31> = readings.iter().copied().collect(heap)?;
    let Some(reading) = pitted.get_mut(PIT) else {
        return Ok(None);
    };
    *reading = reading.sum(P31 { value: DEPTH }.negative());
    Ok(Some(pitted))
}

// Whether a claim follows from the log, and from the log with a pit, and what finalising makes of its circuit.
fn show_claim(rt: &HostRuntime, wall: &Wall<P31>, claim: &Claim<P31>) -> anyhow::Result<()> {
    show_check(rt, wall, claim)?;
    let pitted = with_pit(rt.alloc(), wall.readings)?;
    let pit = pitted.as_ref().map(|readings| Wall {
        readings: readings.as_slice(),
        whole: wall.whole,
    });
    if let Some(pit) = &pit {
        println!(rt; "pit={PIT}")?;
        show_check(rt, pit, claim)?;
    }
    show_goals(rt, wall, claim)?;
    if let Some(pit) = &pit {
        println!(rt; "pit={PIT}")?;
        show_weighed(rt, pit, claim)?;
    }
    Ok(())
}

// The grade that an honest inspector claims, and what comes of the claim.
fn show_grade(rt: &HostRuntime, readings: &[P31]) -> anyhow::Result<()> {
    let wall = Wall {
        readings,
        whole: P31 { value: WHOLE },
    };
    let mut squares = vec![in rt.alloc(); P31::zero(); wall.windows()]?;
    match grade(&wall, squares.as_mut_slice()) {
        Ok(grade) => {
            println!(rt; "grade={grade}")?;
            let claim = Claim {
                squares: squares.as_slice(),
                grade,
            };
            show_claim(rt, &wall, &claim)?;
        }
        Err(refusal) => println!(rt; "refused={}", refusal.number())?,
    }
    Ok(())
}

fn readings(heap: Global, log: &str) -> anyhow::Result<Vec<P31>> {
    log.lines()
        .map(|line| -> anyhow::Result<P31> {
            Ok(P31 {
                value: line.parse::<u32>()?,
            })
        })
        .try_collect(heap)
}

fn log_bytes(heap: Global, log: &str) -> Result<Vec<Gf8>, AllocError> {
    log.bytes().map(|value| Gf8 { value }).collect(heap)
}

fn run(rt: &HostRuntime) -> anyhow::Result<()> {
    let heap = rt.alloc();
    let mut log = String::new(heap);
    rt.stdin().read_to_string(&mut log)?;
    let readings = readings(heap, log.as_str())?;
    println!(rt; "field=p31")?;
    show_windows(rt, readings.as_slice())?;
    show_grade(rt, readings.as_slice())?;
    let bytes = log_bytes(heap, log.as_str())?;
    println!(rt; "field=gf8")?;
    show_windows(rt, bytes.as_slice())
}

fn main(rt: HostRuntime) -> anyhow::Result<()> {
    run(&rt)
}
