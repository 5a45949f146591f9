// What is printed of an answer.
ghost use Rattle.std.specs.Prelude.{◌≡◌, ◌*◌, ◌%◌, length, OnOk};
ghost use Rattle.io.specs.Digits.{hex_digit_ascii};
ghost use Rattle.std.specs.Io.KnownBytes.{Appends};
ghost use Rattle.requests.specs.Text.{reply_text, hex_digits, hex_text, words_text};

use crate::input::MOST;
use definitions::Refusal;
use std::io;
use std::io::Write;

pub fn reply<W: Write>(to: &mut W, r: Result<usize, Refusal>) -> io::Result<()>
    ensures { OnOk result (Appends (W.contents to.old) (W.contents to.new) (reply_text r)) }
{
    match r {
        Ok(n) => write!(to, "ok {n}"),
        Err(f) => write!(to, "{f}"),
    }
}

// The lower digit of a byte.
fn digit(x: u8) -> u8
    ensures { result ≡ hex_digit_ascii (x % 16) }
{
    let d = x % 16;
    if d < 10 { b'0' + d } else { b'a' + (d - 10) }
}

// The digits of all bytes, the higher of each first, which fill out.
fn put_digits(bytes: &[u8], out: &mut [u8])
    requires { length out.old ≡ 2 * length bytes.now }
    ensures { out.new ≡ hex_digits bytes.now }
{
    for (i, x) in bytes.iter().enumerate() {
        out[2 * i] = digit(x / 16);
        out[2 * i + 1] = digit(*x);
    }
}

// All bytes in hexadecimal, or a dash. The digits of a part go out at once, since each write may be a call of the system.
pub fn hex<W: Write>(to: &mut W, bytes: &[u8]) -> io::Result<()>
    ensures { OnOk result (Appends (W.contents to.old) (W.contents to.new) (hex_text bytes.now)) }
{
    if bytes.is_empty() {
        return write!(to, "-");
    }
    let mut digits = [0u8; 2 * MOST];
    for part in bytes.chunks(MOST) {
        let shown = &mut digits[..2 * part.len()];
        put_digits(part, shown);
        to.write_all(shown)?;
    }
    Ok(())
}

// All words in decimal with single spaces between them, or a dash.
pub fn words<W: Write>(to: &mut W, ws: &[i32]) -> io::Result<()>
    ensures { OnOk result (Appends (W.contents to.old) (W.contents to.new) (words_text ws.now)) }
{
    let Some((first, others)) = ws.split_first() else {
        return write!(to, "-");
    };
    write!(to, "{first}")?;
    for x in others {
        write!(to, " {x}")?;
    }
    Ok(())
}
