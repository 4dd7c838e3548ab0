// A call as it was read, which owns its lists.
use runs::{Call, OptimizationGoal, SynthesisError, SynthesisMode, Term, Variable};

#[derive(Drop)]
pub enum Command<F> {
    SetMode(SynthesisMode),
    SetOptimizationGoal(OptimizationGoal),
    NewInputVariable(Result<F, SynthesisError>),
    NewWitnessVariable(Result<F, SynthesisError>),
    NewLc(Vec<Term<F>>),
    EnforceConstraint {
        a: Vec<Term<F>>,
        b: Vec<Term<F>>,
        c: Vec<Term<F>>,
    },
    WhichIsUnsatisfied,
    AssignedValue(Variable),
    Finalize,
    ToMatrices,
}

impl<F: Copy> Command<F> {
    // The call itself. It is lent all places that there are for an answer.
    pub(crate) fn call(&self) -> Call<'_, F> {
        match self {
            Command::SetMode(mode) => Call::SetMode(*mode),
            Command::SetOptimizationGoal(goal) => Call::SetOptimizationGoal(*goal),
            Command::NewInputVariable(value) => Call::NewInputVariable(*value),
            Command::NewWitnessVariable(value) => Call::NewWitnessVariable(*value),
            Command::NewLc(list) => Call::NewLc(list.as_slice()),
            Command::EnforceConstraint { a, b, c } => Call::EnforceConstraint {
                a: a.as_slice(),
                b: b.as_slice(),
                c: c.as_slice(),
            },
            Command::WhichIsUnsatisfied => Call::WhichIsUnsatisfied { work: usize::MAX },
            Command::AssignedValue(variable) => Call::AssignedValue {
                variable: *variable,
                work: usize::MAX,
            },
            Command::Finalize => Call::Finalize,
            Command::ToMatrices => Call::ToMatrices {
                cells: usize::MAX,
                ends: usize::MAX,
            },
        }
    }
}
