ghost use Rattle.std.specs.Prelude.{◌≡◌};

use field::Field;

// How the numbers of two lists combine in a merge. The Rust's `op_impl` takes two closures; an interface has their meaning as
// functions, which the contract of a merge names.
pub trait Combine<F> {
    // what a number of the second list becomes where the first has no such variable
    ghost pushing: { Self → F → F };

    // what two numbers of one variable become
    ghost combining: { Self → F → F → F };

    fn push(&self, other: F) -> F
        ensures { result ≡ pushing self.now other };

    fn combine(&self, cur: F, other: F) -> F
        ensures { result ≡ combining self.now cur other };
}

// The first list plus the second.
pub struct Plus;

impl<F: Field> Combine<F> for Plus {
    ghost pushing = { λ _ b. b };

    ghost combining = { λ _ a b. F.Field.model.plus a b };

    fn push(&self, other: F) -> F {
        other
    }

    fn combine(&self, cur: F, other: F) -> F {
        cur.sum(other)
    }
}

// The first list minus the second.
pub struct Minus;

impl<F: Field> Combine<F> for Minus {
    ghost pushing = { λ _ b. F.Field.model.minus b };

    ghost combining = { λ _ a b. F.Field.model.plus a (F.Field.model.minus b) };

    fn push(&self, other: F) -> F {
        other.negative()
    }

    fn combine(&self, cur: F, other: F) -> F {
        cur.sum(other.negative())
    }
}

// The first list plus the second with every number multiplied by `by`.
#[derive(Clone, Copy)]
pub struct PlusScaled<F> {
    pub by: F,
}

impl<F: Field> Combine<F> for PlusScaled<F> {
    ghost pushing = { λ s b. F.Field.model.times s.by b };

    ghost combining = { λ s a b. F.Field.model.plus a (F.Field.model.times s.by b) };

    fn push(&self, other: F) -> F {
        self.by.product(other)
    }

    fn combine(&self, cur: F, other: F) -> F {
        cur.sum(self.by.product(other))
    }
}

// Numbers as they are: for a merge of which only the length counts.
pub struct Same;

impl<F: Field> Combine<F> for Same {
    ghost pushing = { λ _ b. b };

    ghost combining = { λ _ a b. a };

    fn push(&self, other: F) -> F {
        other
    }

    fn combine(&self, cur: F, _other: F) -> F {
        cur
    }
}
