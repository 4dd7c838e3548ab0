#![tactic(auto)]

// Smoothing sums: each window of a run of readings as a linear combination, and what it is worth.
ghost use Rattle.std.specs.Prelude.{◌≡◌, ◌+◌, ◌≤◌, ◌++◌, length, take, drop, Some, Ok};
ghost use Rattle.variables.specs.Refusals.{answered};
ghost use Rattle.smoothing.specs.Windows.{gathered, smoothed, total};

use field::Field;
use relations::{Assignment, LinearCombination, Refusal, Term, Variable};

// The window of `width` readings from `first` on: its sum, as a list in `places` that names reading k as Witness(k), and what that is
// worth. None where the readings have no such window, and 19 where the places are too few; both leave the places as they are.
pub fn smooth<F: Field>(
    readings: &[F],
    first: usize,
    width: usize,
    places: &mut [Term<F>],
) -> Result<Option<F>, Refusal>
    ensures does { smoothed F.model readings.now first width places.old ≡ record { answer = answered result; places = places.new } }
    ensures sums { (v : F) → result ≡ Ok (Some v) → F.model.stands v ≡ total F.model (take width (drop first readings.now)) }
{
    let Some(rest) = readings.get(first..) else {
        return Ok(None);
    };
    if width > rest.len() {
        return Ok(None);
    }
    if width > places.len() {
        return Err(Refusal::TableTooShort);
    }
    gather(readings, first, width, places)
}

#[tactic(auto, using(crate::proofs::Windows::window_more))]
fn gather<F: Field>(
    readings: &[F],
    first: usize,
    width: usize,
    places: &mut [Term<F>],
) -> Result<Option<F>, Refusal>
    requires fits { first + width ≤ length readings.now }
    requires room { width ≤ length places.old }
    ensures { gathered F.model readings.now first width places.old ≡ record { answer = answered result; places = places.new } }
{
    let mut list = LinearCombination::new(places);
    for k in first..first + width {
        list.add_term(Variable::Witness(k))?;
    }
    Ok(list.worth(&Assignment {
        instances: &[],
        witnesses: readings,
    }))
}
