// Kinds 1 to 3, read, write and compile: from bytes to bytes.
use crate::input::{MOST, Unserved};
use crate::{input, output};
use definitions::Refusal;
use std::io::{Read, Write};

pub fn answer<F: FnOnce(&[u8], &mut [u8]) -> Result<usize, Refusal>, R: Read, W: Write>(
    call: F,
    from: &mut R,
    to: &mut W,
) -> Result<(), Unserved>
    requires { F.IsAlwaysCallable call }
{
    let mut src = [0u8; MOST];
    let mut out = [0xAAu8; MOST];
    let room = input::number(from)? as usize;
    let length = input::size(from)?;
    // only after the length, as an input that fails before it is an error
    if MOST < room {
        return Err(Unserved::NoRequest);
    }
    let src = &mut src[..length];
    input::fill(from, src)?;
    let out = &mut out[..room];
    output::reply(to, call(src, out))?;
    to.write_all(b" ")?;
    output::hex(to, out)?;
    Ok(())
}
