#![tactic(auto)]

// Answers operations on lists of terms: it reads one a line, FIELD;OP;ARG;LEFT;RIGHT, and writes an answer for each.
mod answer;
mod fault;
mod line;
mod number;
mod operation;
mod parse;
mod show;
mod work;

use std::io;
use std::io::{BufRead, BufReader, BufWriter, Write};

fn main(rt: HostRuntime) -> io::Result<()> {
    let heap = rt.alloc();
    let mut out = BufWriter::new(heap, rt.stdout())?;
    for line in BufReader::new(heap, rt.stdin())?.split(heap, b'\n') {
        let line = line?;
        let text = answer::reply(heap, line.as_slice())?;
        writeln!(out, "{text}")?;
    }
    out.flush()
}
