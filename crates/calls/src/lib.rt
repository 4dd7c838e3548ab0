#![tactic(auto)]

// Calls on a circuit as values, with what they answer, and what is promised of runs of such calls.
ghost use Rattle.calls.specs.Does.{DoesGo};
ghost use Rattle.calls.specs.Laws.{OpenCallsGo, FinishedCallsGo, RunsGrow, ReadsOn, OpeningRuns, RunsKeepPromise};

use account::{OptimizationGoal, SynthesisMode};
use field::Field;
use matrices::ConstraintMatrices;
use variables::{Refusal, SynthesisError, Term, Variable};

// A call, with what is handed in. A check and a question say how many places of the run's work table they are lent, and a writing how many of
// its cells and of its row ends; where there are fewer, it is lent all of them.
#[derive(Clone, Copy)]
pub enum Call<'c, F> {
    SetMode(SynthesisMode),
    SetOptimizationGoal(OptimizationGoal),
    NewInputVariable(Result<F, SynthesisError>),
    NewWitnessVariable(Result<F, SynthesisError>),
    NewLc(&'c [Term<F>]),
    EnforceConstraint {
        a: &'c [Term<F>],
        b: &'c [Term<F>],
        c: &'c [Term<F>],
    },
    WhichIsUnsatisfied {
        work: usize,
    },
    AssignedValue {
        variable: Variable,
        work: usize,
    },
    Finalize,
    ToMatrices {
        cells: usize,
        ends: usize,
    },
}

// What a call answers. Of a writing the counts are answered, and none in bare mode; the matrices lie in the cells and the row ends.
#[derive(Clone, Copy)]
pub enum Answer<F> {
    Done,
    Named(Variable),
    Unsatisfied(Option<usize>),
    Assigned(Option<F>),
    Written(Option<ConstraintMatrices>),
    Refused(Refusal),
    // The circuit is in a state in which the call could not be written: nothing was done.
    OutOfPlace,
}

// Each call on an open circuit goes by the account.
pub fn open_calls_go_by_the_account<F: Field>()
    ensures { OpenCallsGo F.model }
{}

// Each call on a finished circuit does.
#[tactic(auto, using(crate::proofs::FinishedCalls::finished_calls_go))]
pub fn finished_calls_go_by_the_account<F: Field>()
    ensures { FinishedCallsGo F.model }
{}

// What a call does by its definition is as the account has it.
pub fn calls_do_what_is_due<F: Field>()
    ensures { DoesGo F.model }
{}

// One call more makes a longer run, and the answers before it are read as before.
pub fn runs_grow<F: Field>()
    ensures grow { RunsGrow F.model }
    ensures read { ReadsOn F.model }
    ensures opening { OpeningRuns F.model }
{}

// A run keeps the promise.
pub fn runs_keep_the_promise<F: Field>()
    ensures { RunsKeepPromise F.model }
{}
