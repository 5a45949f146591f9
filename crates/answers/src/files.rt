// The answer to what files hold.
ghost use Rattle.std.specs.Prelude.{OnOk, IfSome};
ghost use Rattle.std.specs.Io.KnownBytes.{Appends};
ghost use Rattle.answers.specs.Answer.{answer_to};

use crate::{MOST_INPUT, TEXT_ROOM};
use inputs::read_full;
use std::io::{Print, Read, Write};
use std::rt::Files;
use std::{fs, io};

// One byte more than the longest file, and than the longest input: enough to see that there is more.
const FILE_ROOM: usize = 4097;

const INPUT_ROOM: usize = MOST_INPUT + 1;

// Opens a file, or answers none where that fails, as where there is no such file.
pub fn open<R: Files>(rt: &R, path: &str) -> Option<R::File> {
    fs::open(rt, path).ok()
}

// Writes the answer to an input by the rule in a file. Of each it reads no more than shows that it is too long.
pub fn write_answer<F: Read, I: Read, W: Write>(
    file: &mut F,
    input: &mut I,
    to: &mut W,
) -> io::Result<()>
    ensures { OnOk result (IfSome (F.remaining file.old) (λ f. IfSome (I.remaining input.old) (λ s.
        Appends (W.contents to.old) (W.contents to.new) (answer_to f s)))) }
{
    let mut pages = [0u8; FILE_ROOM];
    let size = read_full(file, &mut pages)?;
    let mut batch = [0u8; INPUT_ROOM];
    let length = read_full(input, &mut batch)?;
    let mut out = [0u8; TEXT_ROOM];
    let n = crate::answer(&pages[..size], &batch[..length], &mut out);
    to.write_all(&out[..n])
}

// Prints the answer to an input by the rule in the file at the path. A file that cannot be opened counts as an empty one.
pub fn print<R: Files + Print, I: Read>(rt: &R, path: &str, input: &mut I) -> io::Result<()> {
    let mut to = io::writer(rt);
    match open(rt, path) {
        Some(mut file) => write_answer(&mut file, input, &mut to),
        None => write_answer(&mut io::empty(), input, &mut to),
    }
}
