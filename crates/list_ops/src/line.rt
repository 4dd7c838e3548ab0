// A line in its five parts, and the heap that its answer is made on.
use crate::fault::Fault;
use std::alloc::Global;

#[derive(Clone, Copy)]
pub struct Line<'a> {
    pub heap: Global,
    pub field: &'a str,
    pub operation: &'a str,
    pub argument: &'a str,
    pub left: &'a str,
    pub right: &'a str,
}

impl<'a> Line<'a> {
    // None where there are fewer parts or more: the one fault that there is, so an `Option` says all.
    pub(crate) fn read(heap: Global, text: &'a str) -> Option<Line<'a>> {
        let (field, rest) = text.split_once(';')?;
        let (operation, rest) = rest.split_once(';')?;
        let (argument, rest) = rest.split_once(';')?;
        let (left, right) = rest.split_once(';')?;
        if right.contains(';') {
            return None;
        }
        Some(Line {
            heap,
            field,
            operation,
            argument,
            left,
            right,
        })
    }
}

// A part that the operation does not take.
pub(crate) fn unused(part: &str) -> Result<(), Fault> {
    if part.is_empty() {
        Ok(())
    } else {
        Err(Fault::Malformed)
    }
}
