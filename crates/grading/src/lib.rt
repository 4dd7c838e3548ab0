#![tactic(auto)]

// A grade of wall loss, and the calls that a claimed grade is checked by.
ghost use Rattle.std.specs.Prelude.{◌≡◌, ◌+◌, ◌-◌, ◌<◌, ◌≤◌, ◌↔◌, length, drop, IfOk, IsErr};
ghost use Rattle.std.specs.List.{slice_get};
ghost use Rattle.variables.specs.Refusals.{answered, refused};
ghost use Rattle.claims.specs.Grades.{windows_of, handed, loss_at, Honest, worked_loss, Worked};

mod asking;
mod judging;
mod lists;

pub use asking::claim_calls;
pub use claims::{Claim, Wall};
use field::Field;
pub use judging::{Verdict, judge};
pub use lists::claim_terms;
use variables::{Refusal, SynthesisError};

// The loss of window `k`.
fn loss<F: Field>(wall: &Wall<F>, k: usize) -> F
    requires within { k < windows_of wall.now }
    ensures worked { result ≡ worked_loss F.model wall.now k }
    ensures stands { F.model.stands result ≡ loss_at F.model wall.now k }
{
    let sum = wall.readings[k]
        .sum(wall.readings[k + 1])
        .sum(wall.readings[k + 2]);
    wall.whole.sum(sum.negative())
}

// The claimed square of window `k`, as it is handed in for its witness.
fn square<F: Field>(claim: &Claim<F>, k: usize) -> Result<F, SynthesisError>
    ensures { result ≡ handed (slice_get claim.now.squares.now k) }
{
    let square = claim.squares.get(k).copied();
    square.ok_or(SynthesisError::AssignmentMissing)
}

// What an honest inspector claims: fills the places for the squares of the windows, and answers the grade.
pub fn grade<F: Field>(wall: &Wall<F>, squares: &mut [F]) -> Result<F, Refusal>
    ensures worked { IfOk result (λ grade. Worked F.model wall.now (windows_of wall.now) squares.new grade) }
    ensures honest { IfOk result (λ grade. Honest F.model wall.now squares.new grade) }
    ensures beyond { drop (windows_of wall.now) squares.new ≡ drop (windows_of wall.now) squares.old }
    ensures refused { (IsErr result ↔ (length squares.old < windows_of wall.now)) × (IsErr result → (answered result ≡ refused 19) × (squares.new ≡ squares.old)) }
{
    let windows = wall.windows();
    if windows > squares.len() {
        return Err(Refusal::TableTooShort);
    }
    let mut grade = F::zero();
    for k in 0..windows {
        let loss = loss(wall, k);
        let square = loss.product(loss);
        squares[k] = square;
        grade = grade.sum(square);
    }
    Ok(grade)
}
