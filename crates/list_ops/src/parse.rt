// Numbers, variables, terms and lists from text.
use crate::fault::Fault;
use crate::number::Number;
use relations::{LcIndex, Term, Variable};
use std::alloc::Global;

// Decimal digits alone, with no sign.
fn natural(text: &str) -> Result<u64, Fault> {
    if text.starts_with('+') {
        return Err(Fault::Malformed);
    }
    Ok(text.parse::<u64>()?)
}

fn index(text: &str) -> Result<usize, Fault> {
    Ok(usize::try_from(natural(text)?)?)
}

pub(crate) fn number<F: Number>(text: &str) -> Result<F, Fault> {
    Ok(F::try_from(natural(text)?)?)
}

pub(crate) fn variable(text: &str) -> Result<Variable, Fault> {
    let mut rest = text.chars();
    match (rest.next(), rest.as_str()) {
        (Some('z'), "") => Ok(Variable::Zero),
        (Some('o'), "") => Ok(Variable::One),
        (Some('i'), n) => Ok(Variable::Instance(index(n)?)),
        (Some('w'), n) => Ok(Variable::Witness(index(n)?)),
        (Some('s'), n) => Ok(Variable::SymbolicLc(LcIndex(index(n)?))),
        _ => Err(Fault::Malformed),
    }
}

pub(crate) fn term<F: Number>(text: &str) -> Result<Term<F>, Fault> {
    let (front, back) = text.split_once('*').ok_or(Fault::Malformed)?;
    Ok(Term {
        number: number(front)?,
        variable: variable(back)?,
    })
}

pub(crate) fn list<F: Number>(heap: Global, text: &str) -> Result<Vec<Term<F>>, Fault> {
    if text.is_empty() {
        return Ok(Vec::new(heap));
    }
    // a closure: `term` itself, a function that answers values of a type parameter, cannot yet be passed
    text.split(' ')
        .map(|part| -> Result<Term<F>, Fault> { term(part) })
        .try_collect(heap)
}
