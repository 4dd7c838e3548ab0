// Numbers, variables, terms, lists and calls from text.
use crate::command::Command;
use crate::fault::Fault;
use crate::number::Number;
use runs::{LcIndex, OptimizationGoal, SynthesisError, SynthesisMode, Term, Variable};
use std::alloc::Global;

// Decimal digits alone, with no sign.
fn natural(text: &str) -> Result<u64, Fault> {
    if text.starts_with('+') {
        return Err(Fault::Malformed);
    }
    Ok(text.parse::<u64>()?)
}

fn index(text: &str) -> Result<usize, Fault> {
    Ok(usize::try_from(natural(text)?)?)
}

fn number<F: Number>(text: &str) -> Result<F, Fault> {
    Ok(F::try_from(natural(text)?)?)
}

fn variable(text: &str) -> Result<Variable, Fault> {
    let mut rest = text.chars();
    match (rest.next(), rest.as_str()) {
        (Some('z'), "") => Ok(Variable::Zero),
        (Some('o'), "") => Ok(Variable::One),
        (Some('i'), n) => Ok(Variable::Instance(index(n)?)),
        (Some('w'), n) => Ok(Variable::Witness(index(n)?)),
        (Some('s'), n) => Ok(Variable::SymbolicLc(LcIndex(index(n)?))),
        _ => Err(Fault::Malformed),
    }
}

fn term<F: Number>(text: &str) -> Result<Term<F>, Fault> {
    let (front, back) = text.split_once('*').ok_or(Fault::Malformed)?;
    Ok(Term {
        number: number(front)?,
        variable: variable(back)?,
    })
}

fn list<F: Number>(heap: Global, text: &str) -> Result<Vec<Term<F>>, Fault> {
    if text.is_empty() {
        return Ok(Vec::new(heap));
    }
    // a closure: `term` itself, a function that answers values of a type parameter, cannot yet be passed
    text.split(' ')
        .map(|part| -> Result<Term<F>, Fault> { term(part) })
        .try_collect(heap)
}

// A value, or the word for one that is missing.
fn value<F: Number>(text: &str) -> Result<Result<F, SynthesisError>, Fault> {
    match text {
        "none" => Ok(Err(SynthesisError::AssignmentMissing)),
        _ => Ok(Ok(number(text)?)),
    }
}

fn mode(text: &str) -> Result<SynthesisMode, Fault> {
    match text {
        "setup" => Ok(SynthesisMode::Setup),
        "prove" => Ok(SynthesisMode::Prove {
            construct_matrices: true,
        }),
        "bare" => Ok(SynthesisMode::Prove {
            construct_matrices: false,
        }),
        _ => Err(Fault::Malformed),
    }
}

fn goal(text: &str) -> Result<OptimizationGoal, Fault> {
    match text {
        "none" => Ok(OptimizationGoal::None),
        "constraints" => Ok(OptimizationGoal::Constraints),
        "weight" => Ok(OptimizationGoal::Weight),
        _ => Err(Fault::Malformed),
    }
}

// Three lists with commas between them.
fn constraint<F: Number>(heap: Global, text: &str) -> Result<Command<F>, Fault> {
    let (a, rest) = text.split_once(',').ok_or(Fault::Malformed)?;
    let (b, c) = rest.split_once(',').ok_or(Fault::Malformed)?;
    Ok(Command::EnforceConstraint {
        a: list(heap, a)?,
        b: list(heap, b)?,
        c: list(heap, c)?,
    })
}

fn without_argument<F: Number>(name: &str) -> Result<Command<F>, Fault> {
    match name {
        "check" => Ok(Command::WhichIsUnsatisfied),
        "finalize" => Ok(Command::Finalize),
        "matrices" => Ok(Command::ToMatrices),
        _ => Err(Fault::Malformed),
    }
}

fn with_argument<F: Number>(heap: Global, name: &str, argument: &str) -> Result<Command<F>, Fault> {
    match name {
        "mode" => Ok(Command::SetMode(mode(argument)?)),
        "goal" => Ok(Command::SetOptimizationGoal(goal(argument)?)),
        "input" => Ok(Command::NewInputVariable(value(argument)?)),
        "witness" => Ok(Command::NewWitnessVariable(value(argument)?)),
        "lc" => Ok(Command::NewLc(list(heap, argument)?)),
        "constraint" => constraint(heap, argument),
        "value" => Ok(Command::AssignedValue(variable(argument)?)),
        _ => Err(Fault::Malformed),
    }
}

fn command<F: Number>(heap: Global, text: &str) -> Result<Command<F>, Fault> {
    match text.split_once('=') {
        Some((name, argument)) => with_argument(heap, name, argument),
        None => without_argument(text),
    }
}

// The calls of a line; one that ends after its field has none.
pub(crate) fn commands<F: Number>(
    heap: Global,
    text: Option<&str>,
) -> Result<Vec<Command<F>>, Fault> {
    match text {
        Some(text) => text
            .split(';')
            .map(|part| -> Result<Command<F>, Fault> { command(heap, part) })
            .try_collect(heap),
        None => Ok(Vec::new(heap)),
    }
}
