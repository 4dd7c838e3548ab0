#![tactic(auto)]

// Makes circuits: it reads one a line, FIELD;CALL;CALL;.., makes the calls as one run, and writes what each answers and what is left.
mod answer;
mod command;
mod fault;
mod number;
mod parse;
mod room;
mod show;

use room::Rooms;
use std::io;
use std::io::{BufRead, BufReader, BufWriter, Write};

fn main(rt: HostRuntime) -> io::Result<()> {
    let heap = rt.alloc();
    let mut rooms = Rooms::new(heap)?;
    let mut out = BufWriter::new(heap, rt.stdout())?;
    for line in BufReader::new(heap, rt.stdin())?.split(heap, b'\n') {
        let line = line?;
        let text = answer::reply(heap, &mut rooms, line.as_slice())?;
        writeln!(out, "{text}")?;
    }
    out.flush()
}
