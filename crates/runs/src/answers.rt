// What a call returned, as the answer that a run writes.
ghost use Rattle.std.specs.Prelude.{◌≡◌};
ghost use Rattle.runs.specs.Run.{answer_from};
ghost use Rattle.calls.specs.declared.Answer.TheVariants.{Done, Named, Unsatisfied, Assigned, Written};

use calls::Answer;
use constraint_system::{ConstraintMatrices, Refusal, Variable};
use field::Field;

pub fn done<F: Field>(returned: Result<(), Refusal>) -> Answer<F>
    ensures { result ≡ answer_from (λ _. Done) returned }
{
    match returned {
        Ok(()) => Answer::Done,
        Err(refusal) => Answer::Refused(refusal),
    }
}

pub fn named<F: Field>(returned: Result<Variable, Refusal>) -> Answer<F>
    ensures { result ≡ answer_from Named returned }
{
    match returned {
        Ok(variable) => Answer::Named(variable),
        Err(refusal) => Answer::Refused(refusal),
    }
}

pub fn unsatisfied<F: Field>(returned: Result<Option<usize>, Refusal>) -> Answer<F>
    ensures { result ≡ answer_from Unsatisfied returned }
{
    match returned {
        Ok(row) => Answer::Unsatisfied(row),
        Err(refusal) => Answer::Refused(refusal),
    }
}

pub fn assigned<F: Field>(returned: Result<Option<F>, Refusal>) -> Answer<F>
    ensures { result ≡ answer_from Assigned returned }
{
    match returned {
        Ok(value) => Answer::Assigned(value),
        Err(refusal) => Answer::Refused(refusal),
    }
}

pub fn written<F: Field>(returned: Result<Option<ConstraintMatrices>, Refusal>) -> Answer<F>
    ensures { result ≡ answer_from Written returned }
{
    match returned {
        Ok(matrices) => Answer::Written(matrices),
        Err(refusal) => Answer::Refused(refusal),
    }
}
