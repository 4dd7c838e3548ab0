// The operations, by name. A name is text, so each stands as a case of a `match`; those that take a number, a term or a variable follow
// those that take nothing. An arm reads its own argument, so that what it takes stands beside its name.
use crate::fault::Fault;
use crate::line::{Line, unused};
use crate::number::Number;
use crate::parse;
use relations::Term;

pub(crate) fn answered<F: Number>(line: &Line) -> Result<String, Fault> {
    match line.operation {
        "negate" => {
            unused(line.argument)?;
            line.in_place::<F, _>(|list| list.negate_in_place())
        }
        "compactify" => {
            unused(line.argument)?;
            line.in_place::<F, _>(|list| list.compactify())
        }
        "sum" => {
            unused(line.argument)?;
            line.of_both::<F, _>(|list, left, right| list.assign_sum(left, right))
        }
        "difference" => {
            unused(line.argument)?;
            line.of_both::<F, _>(|list, left, right| list.assign_difference(left, right))
        }
        _ => with_number::<F>(line),
    }
}

fn with_number<F: Number>(line: &Line) -> Result<String, Fault> {
    match line.operation {
        "scale" => {
            let by: F = parse::number(line.argument)?;
            line.in_place::<F, _>(|list| list.mul_assign(by))
        }
        "sum_scaled" => {
            let by: F = parse::number(line.argument)?;
            line.of_both::<F, _>(|list, left, right| list.assign_sum_scaled(left, by, right))
        }
        "difference_scaled" => {
            let by: F = parse::number(line.argument)?;
            line.of_both::<F, _>(|list, left, right| {
                list.assign_difference_scaled(left, by, right)
            })
        }
        _ => with_term::<F>(line),
    }
}

fn with_term<F: Number>(line: &Line) -> Result<String, Fault> {
    match line.operation {
        "add_term" => {
            let term: Term<F> = parse::term(line.argument)?;
            line.with_room::<F, _>(|list| list.add_term(term))
        }
        "sub_term" => {
            let term: Term<F> = parse::term(line.argument)?;
            line.with_room::<F, _>(|list| list.sub_term(term))
        }
        "from_term" => {
            unused(line.left)?;
            let term: Term<F> = parse::term(line.argument)?;
            line.with_room::<F, _>(|list| list.assign_term(term))
        }
        _ => with_variable::<F>(line),
    }
}

fn with_variable<F: Number>(line: &Line) -> Result<String, Fault> {
    let variable = parse::variable(line.argument)?;
    match line.operation {
        "add_variable" => line.with_room::<F, _>(|list| list.add_term(variable)),
        "sub_variable" => line.with_room::<F, _>(|list| list.sub_term(variable)),
        "from_variable" => {
            unused(line.left)?;
            line.with_room::<F, _>(|list| list.assign_term(variable))
        }
        "locate" => line.located::<F>(variable),
        "questions" => line.asked(variable),
        "compare" => line.compared::<F>(variable),
        _ => Err(Fault::Malformed),
    }
}
