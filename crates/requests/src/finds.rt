// Kind 5, find: the part of a result buffer or of a working buffer.
use crate::input::{MOST, Unserved};
use crate::{input, output};
use std::io::{Read, Write};

pub fn answer<R: Read, W: Write>(from: &mut R, to: &mut W) -> Result<(), Unserved> {
    // the buffers first: a function clears them as it begins, and else would again
    let mut res = [0i32; MOST];
    let mut work = [0i32; MOST];
    let rows = input::number(from)? as usize;
    let quota = input::number(from)? as usize;
    let columns = input::number(from)? as usize;
    let row = input::number(from)? as usize;
    let res = input::part(from, &mut res, input::fill_words)?;
    let work = input::part(from, &mut work, input::fill_words)?;
    output::words(to, finder::find(res, work, rows, quota, columns, row))?;
    Ok(())
}
