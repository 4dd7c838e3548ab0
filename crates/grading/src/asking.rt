// The calls of a claim, over the terms of its lists.
ghost use Rattle.std.specs.Prelude.{◌≡◌, ◌+◌, ◌*◌, ◌<◌, ◌≤◌, ◌↔◌, ◌⊎◌, [], ◌∷◌, ◌++◌, length, drop, map, IfOk, IsErr, Ok};
ghost use Rattle.variables.specs.Refusals.{answered, refused};
ghost use Rattle.tables.specs.Held.{put};
ghost use Rattle.matrices.specs.Writing.{over};
ghost use Rattle.account.specs.Calls.{set_optimization_goal, new_input_variable};
ghost use Rattle.calls.specs.Calls.{Rooms, as_call};
ghost use Rattle.claims.specs.Grades.{windows_of, naming, judging, window_calls, windows_calls, last_calls, calls_over};

use crate::lists::{LAST_TERMS, WINDOW_TERMS, have_room};
use crate::{Claim, Wall, square};
use account::OptimizationGoal;
use calls::Call;
use field::Field;
use variables::{Refusal, SynthesisError, Term};

// So many calls has a window.
const WINDOW_CALLS: usize = 5;
// So many come before the readings.
const FIRST_CALLS: usize = 2;
// So many come after the windows.
const LAST_CALLS: usize = 5;
// The number of places that lends all that there are.
const ALL: usize = usize::MAX;

// The goal is set, and the claimed grade is an instance.
fn lay_first<'t, F: Field>(goal: OptimizationGoal, grade: F, calls: &mut [Call<'t, F>])
    requires room { 2 ≤ length calls.old }
    ensures laid { (r : Rooms) → map (as_call r) calls.new ≡ over (map (as_call r) calls.old) (set_optimization_goal goal ∷ new_input_variable (Ok grade) ∷ []) }
    ensures beyond { drop 2 calls.new ≡ drop 2 calls.old }
{
    calls[0] = Call::SetOptimizationGoal(goal);
    calls[1] = Call::NewInputVariable(Ok(grade));
}

// Each reading is a witness.
fn lay_readings<'t, F: Field>(readings: &[F], calls: &mut [Call<'t, F>], at: usize)
    requires room { at + length readings.now ≤ length calls.old }
    ensures laid { (r : Rooms) → map (as_call r) calls.new ≡ put (map (as_call r) calls.old) at (naming readings.now) }
    ensures beyond { drop (at + length readings.now) calls.new ≡ drop (at + length readings.now) calls.old }
{
    for (i, reading) in readings.iter().enumerate() {
        calls[at + i] = Call::NewWitnessVariable(Ok(*reading));
    }
}

// The calls of a window whose lists these terms are.
fn lay_window<'t, F: Field>(
    lists: &'t [Term<F>],
    square: Result<F, SynthesisError>,
    calls: &mut [Call<'t, F>],
    at: usize,
)
    requires lists { length lists.now ≡ 9 }
    requires room { at + 5 ≤ length calls.old }
    ensures laid { (r : Rooms) → map (as_call r) calls.new ≡ put (map (as_call r) calls.old) at (window_calls lists.now square) }
    ensures beyond { drop (at + 5) calls.new ≡ drop (at + 5) calls.old }
{
    let loss = &lists[5..6];
    calls[at] = Call::NewLc(&lists[0..3]);
    calls[at + 1] = Call::NewLc(&lists[3..5]);
    calls[at + 2] = Call::NewWitnessVariable(square);
    calls[at + 3] = Call::EnforceConstraint {
        a: loss,
        b: loss,
        c: &lists[6..7],
    };
    calls[at + 4] = Call::NewLc(&lists[7..9]);
}

// The calls of each window in turn.
fn lay_windows<'t, F: Field>(
    windows: usize,
    claim: &Claim<F>,
    terms: &'t [Term<F>],
    calls: &mut [Call<'t, F>],
    at: usize,
)
    requires terms { 9 * windows ≤ length terms.now }
    requires room { at + 5 * windows ≤ length calls.old }
    ensures laid { (r : Rooms) → map (as_call r) calls.new ≡ put (map (as_call r) calls.old) at (windows_calls terms.now claim.now.squares.now windows) }
    ensures beyond { drop (at + 5 * windows) calls.new ≡ drop (at + 5 * windows) calls.old }
{
    for w in 0..windows {
        let start = WINDOW_TERMS * w;
        let lists = &terms[start..start + WINDOW_TERMS];
        lay_window(lists, square(claim, w), calls, at + WINDOW_CALLS * w);
    }
}

// The last constraint, whose lists these terms are, and then a check, finalising, a check again, and a writing.
fn lay_last<'t, F: Field>(lists: &'t [Term<F>], calls: &mut [Call<'t, F>], at: usize)
    requires lists { length lists.now ≡ 3 }
    requires room { at + 5 ≤ length calls.old }
    ensures laid { (r : Rooms) → map (as_call r) calls.new ≡ put (map (as_call r) calls.old) at (last_calls lists.now ++ judging r) }
    ensures beyond { drop (at + 5) calls.new ≡ drop (at + 5) calls.old }
{
    calls[at] = Call::EnforceConstraint {
        a: &lists[0..1],
        b: &lists[1..2],
        c: &lists[2..3],
    };
    calls[at + 1] = Call::WhichIsUnsatisfied { work: ALL };
    calls[at + 2] = Call::Finalize;
    calls[at + 3] = Call::WhichIsUnsatisfied { work: ALL };
    calls[at + 4] = Call::ToMatrices {
        cells: ALL,
        ends: ALL,
    };
}

// Lays the calls of a claim into lent places, over the terms of its lists, and answers how many there are.
pub fn claim_calls<'t, F: Field>(
    goal: OptimizationGoal,
    wall: &Wall<F>,
    claim: &Claim<F>,
    terms: &'t [Term<F>],
    calls: &mut [Call<'t, F>],
) -> Result<usize, Refusal>
    ensures laid { IfOk result (λ n. (r : Rooms) → let over_terms = calls_over r goal wall.now claim.now terms.now in
        (n ≡ length over_terms) × (map (as_call r) calls.new ≡ over (map (as_call r) calls.old) over_terms)) }
    ensures beyond { IfOk result (λ n. drop n calls.new ≡ drop n calls.old) }
    ensures refused { (IsErr result ↔ ((length terms.now < 9 * windows_of wall.now + 3) ⊎ (length calls.old < length wall.now.readings.now + 5 * windows_of wall.now + 7)))
        × (IsErr result → (answered result ≡ refused 19) × (calls.new ≡ calls.old)) }
{
    let windows = wall.windows();
    if !have_room(terms, windows) {
        return Err(Refusal::TableTooShort);
    }
    let readings = wall.readings.len();
    let end = FIRST_CALLS + readings + WINDOW_CALLS * windows;
    if calls.len() < end + LAST_CALLS {
        return Err(Refusal::TableTooShort);
    }
    lay_first(goal, claim.grade, calls);
    lay_readings(wall.readings, calls, FIRST_CALLS);
    lay_windows(windows, claim, terms, calls, FIRST_CALLS + readings);
    let start = WINDOW_TERMS * windows;
    lay_last(&terms[start..start + LAST_TERMS], calls, end);
    Ok(end + LAST_CALLS)
}
