// The requests of the conformance vectors: each is read from standard input and handed to the library, and its answer is printed.
#![tactic(auto)]

mod bytes;
mod finds;
mod input;
mod output;
mod runs;

use input::Unserved;
use std::io;
use std::io::{Input, Print, Read, Write};

// Serves all requests of standard input, and prints their answers. What is none is answered with a line of its own, the last.
pub fn serve<R: Input + Print>(rt: &R) -> io::Result<()> {
    let to = &mut io::writer(rt);
    match serve_each(&mut rt.reader(), to) {
        Ok(()) => Ok(()),
        Err(Unserved::Io(e)) => Err(e),
        Err(Unserved::NoRequest) => to.write_all(b"end\n"),
    }
}

// A proved loop has to end, and nothing says that the input does: so it counts up to a number that no input uses up.
fn serve_each<R: Read, W: Write>(from: &mut R, to: &mut W) -> Result<(), Unserved> {
    for _ in 0..u64::MAX {
        let Some(kind) = input::next_number(from)? else {
            break;
        };
        answer(kind, from, to)?;
        to.write_all(b"\n")?;
    }
    Ok(())
}

// Answers a request of this kind.
fn answer<R: Read, W: Write>(kind: u32, from: &mut R, to: &mut W) -> Result<(), Unserved> {
    match kind {
        1 => bytes::answer(rules::read, from, to),
        2 => bytes::answer(rules::write, from, to),
        3 => bytes::answer(plans::compile, from, to),
        4 => runs::answer(from, to),
        5 => finds::answer(from, to),
        _ => Err(Unserved::NoRequest),
    }
}
