// Which lists are outlined, by the goal.
ghost use Rattle.std.specs.Prelude.{◌≡◌, ℕ, Bool, List, length, false};
ghost use Rattle.variables.specs.declared.Term.{Term};
ghost use Rattle.account.specs.Finish.{weighs_more};

use field::Field;
use variables::Term;

// A rule that picks lists to outline, by how often the list is used and by its merged list.
pub trait OutliningRule<F: Field> {
    ghost picking: { Self → ℕ → List (Term F) → Bool };

    fn picks(&self, uses: usize, merged: &[Term<F>]) -> bool
        ensures { result ≡ picking self.now uses merged.now };
}

// The rule of goal None: nothing is outlined.
#[derive(Clone, Copy, Debug)]
pub struct ForNone;

// The rule of goal Constraints: nothing is outlined.
#[derive(Clone, Copy, Debug)]
pub struct ForConstraints;

// The rule of goal Weight: a list is outlined where its copies weigh more than a row for it.
#[derive(Clone, Copy, Debug)]
pub struct ForWeight;

impl<F: Field> OutliningRule<F> for ForNone {
    ghost picking = { λ _ uses merged. false };

    fn picks(&self, _uses: usize, _merged: &[Term<F>]) -> bool {
        false
    }
}

impl<F: Field> OutliningRule<F> for ForConstraints {
    ghost picking = { λ _ uses merged. false };

    fn picks(&self, uses: usize, merged: &[Term<F>]) -> bool {
        ForNone.picks(uses, merged)
    }
}

impl<F: Field> OutliningRule<F> for ForWeight {
    ghost picking = { λ _ uses merged. weighs_more uses (length merged) };

    fn picks(&self, uses: usize, merged: &[Term<F>]) -> bool {
        // in 128 bits, which the product of any two counts fits
        let u = uses as u128 + 1;
        let n = merged.len() as u128;
        u * n > u + 2 + n
    }
}
