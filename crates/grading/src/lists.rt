// The terms of a claim's lists, in lent places.
ghost use Rattle.std.specs.Prelude.{◌≡◌, ◌+◌, ◌*◌, ◌<◌, ◌≤◌, ◌↔◌, length, IfOk, IsErr, true};
ghost use Rattle.variables.specs.Refusals.{answered, refused};
ghost use Rattle.tables.specs.Held.{put};
ghost use Rattle.matrices.specs.Writing.{over};
ghost use Rattle.claims.specs.Grades.{windows_of, total_before, window_terms, windows_terms, last_terms, terms_of};

use crate::Wall;
use field::Field;
use variables::{LcIndex, Refusal, Term, Variable};

// So many terms have the lists of a window.
pub const WINDOW_TERMS: usize = 9;
// So many have those of the last constraint.
pub const LAST_TERMS: usize = 3;
// So many symbols has a window.
const SYMBOLS: usize = 6;

// The total of the windows before window `w`.
fn total_before(w: usize) -> Variable
    requires { 6 * w ≤ 18446744073709551615 }
    ensures { result ≡ total_before w }
{
    if w == 0 {
        return Variable::Zero;
    }
    Variable::SymbolicLc(LcIndex(SYMBOLS * w - 1))
}

// Whether the term places suffice for a claim of so many windows.
pub fn have_room<F: Field>(terms: &[Term<F>], windows: usize) -> bool
    ensures { (result ≡ true) ↔ (9 * windows + 3 ≤ length terms.now) }
{
    let places = terms.len();
    places >= LAST_TERMS && (places - LAST_TERMS) / WINDOW_TERMS >= windows
}

// Lays the lists of window `w`.
fn lay_window<F: Field>(wall: &Wall<F>, w: usize, terms: &mut [Term<F>])
    requires within { w < windows_of wall.now }
    requires room { 9 * windows_of wall.now + 3 ≤ length terms.old }
    ensures { terms.new ≡ put terms.old (9 * w) (window_terms F.model wall.now w) }
{
    let sum = Variable::SymbolicLc(LcIndex(SYMBOLS * w));
    let loss = Variable::SymbolicLc(LcIndex(SYMBOLS * w + 1));
    let square = Term::from(Variable::Witness(wall.readings.len() + w));
    let lists = [
        Term::from(Variable::Witness(w)),
        Term::from(Variable::Witness(w + 1)),
        Term::from(Variable::Witness(w + 2)),
        Term::from((wall.whole, Variable::One)),
        Term::from((F::one().negative(), sum)),
        Term::from(loss),
        square,
        Term::from(total_before(w)),
        square,
    ];
    let start = WINDOW_TERMS * w;
    terms[start..start + WINDOW_TERMS].copy_from_slice(&lists);
}

// Lays the lists of the constraint that the total of so many windows is the grade.
fn lay_last<F: Field>(wall: &Wall<F>, terms: &mut [Term<F>])
    requires room { 9 * windows_of wall.now + 3 ≤ length terms.old }
    ensures { terms.new ≡ put terms.old (9 * windows_of wall.now) (last_terms F.model wall.now) }
{
    let windows = wall.windows();
    let lists = [
        Term::from(total_before(windows)),
        Term::from(Variable::One),
        Term::from(Variable::Instance(1)),
    ];
    let start = WINDOW_TERMS * windows;
    terms[start..start + LAST_TERMS].copy_from_slice(&lists);
}

// Lays the lists of each window in turn.
fn lay_windows<F: Field>(wall: &Wall<F>, terms: &mut [Term<F>])
    requires room { 9 * windows_of wall.now + 3 ≤ length terms.old }
    ensures { terms.new ≡ over terms.old (windows_terms F.model wall.now (windows_of wall.now)) }
{
    for w in 0..wall.windows() {
        lay_window(wall, w, terms);
    }
}

// Lays the terms of all lists of a claim into lent places, and answers how many there are.
pub fn claim_terms<F: Field>(wall: &Wall<F>, terms: &mut [Term<F>]) -> Result<usize, Refusal>
    ensures laid { IfOk result (λ n. (n ≡ length (terms_of F.model wall.now)) × (terms.new ≡ over terms.old (terms_of F.model wall.now))) }
    ensures refused { (IsErr result ↔ (length terms.old < 9 * windows_of wall.now + 3)) × (IsErr result → (answered result ≡ refused 19) × (terms.new ≡ terms.old)) }
{
    let windows = wall.windows();
    if !have_room(terms, windows) {
        return Err(Refusal::TableTooShort);
    }
    lay_windows(wall, terms);
    lay_last(wall, terms);
    Ok(WINDOW_TERMS * windows + LAST_TERMS)
}
