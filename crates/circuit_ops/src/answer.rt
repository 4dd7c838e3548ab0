// The answer to a line.
use crate::command::Command;
use crate::fault::Fault;
use crate::number::Number;
use crate::room::{Room, Rooms};
use crate::{parse, show};
use runs::{Answer, Call};
use std::alloc::{AllocError, Global};
use std::str;

pub(crate) fn reply(heap: Global, rooms: &mut Rooms, line: &[u8]) -> Result<String, AllocError> {
    match answered(heap, rooms, line) {
        Ok(text) => Ok(text),
        Err(Fault::Malformed) => String::from_str(heap, "malformed"),
        Err(Fault::Memory(error)) => Err(error),
    }
}

fn answered(heap: Global, rooms: &mut Rooms, line: &[u8]) -> Result<String, Fault> {
    let line = str::from_utf8(line)?;
    let (field, calls) = match line.split_once(';') {
        Some((field, calls)) => (field, Some(calls)),
        None => (line, None),
    };
    match field {
        "p31" => made(heap, &mut rooms.p31, calls),
        "gf8" => made(heap, &mut rooms.gf8, calls),
        _ => Err(Fault::Malformed),
    }
}

// Makes the calls, and tells what comes of them.
fn made<F: Number>(heap: Global, room: &mut Room<F>, calls: Option<&str>) -> Result<String, Fault> {
    let commands: Vec<Command<F>> = parse::commands(heap, calls)?;
    let calls: Vec<Call<'_, F>> = commands.iter().map(|command| command.call()).collect(heap)?;
    let mut answers = vec![in heap; Answer::Done; calls.len()]?;
    match room.run(calls.as_slice(), answers.as_mut_slice()) {
        Ok(circuit) => Ok(show::whole(heap, room, answers.as_slice(), &circuit)?),
        Err(refusal) => Ok(format!(in heap; "refused={}", refusal.number())?),
    }
}
