// The answer to a line.
use crate::fault::Fault;
use crate::line::Line;
use crate::operation;
use gf8::Gf8;
use p31::P31;
use std::alloc::{AllocError, Global};
use std::str;

pub(crate) fn reply(heap: Global, line: &[u8]) -> Result<String, AllocError> {
    match answered(heap, line) {
        Ok(text) => Ok(text),
        Err(Fault::Malformed) => String::from_str(heap, "malformed"),
        Err(Fault::Refused(refusal)) => format!(in heap; "refused={}", refusal.number()),
        Err(Fault::Memory(error)) => Err(error),
    }
}

fn answered(heap: Global, line: &[u8]) -> Result<String, Fault> {
    let line = Line::read(heap, str::from_utf8(line)?).ok_or(Fault::Malformed)?;
    match line.field {
        "p31" => operation::answered::<P31>(&line),
        "gf8" => operation::answered::<Gf8>(&line),
        _ => Err(Fault::Malformed),
    }
}
