// The values that are kept of instances and witnesses.
ghost use Rattle.std.specs.Prelude.{◌≡◌};
ghost use Rattle.variables.specs.Assigned.{assigned};

use crate::Variable;
use field::Field;

// The value of each instance and each witness, by number.
#[derive(Clone, Copy)]
pub struct Assignment<'a, F> {
    pub instances: &'a [F],
    pub witnesses: &'a [F],
}

impl<F: Field> Assignment<'_, F> {
    // The value of a variable that is no symbol, where it is kept.
    pub fn value(&self, variable: Variable) -> Option<F>
        ensures { result ≡ assigned F.model self.now variable }
    {
        match variable {
            Variable::Zero => Some(F::zero()),
            Variable::One => Some(F::one()),
            Variable::Instance(i) => self.instances.get(i).copied(),
            Variable::Witness(i) => self.witnesses.get(i).copied(),
            Variable::SymbolicLc(_) => None,
        }
    }
}
