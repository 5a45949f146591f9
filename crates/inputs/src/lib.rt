// Bytes from a file or an input, into a caller's buffer.
#![tactic(auto)]

ghost use Rattle.std.specs.Prelude.{◌≡◌, length, take, IfOk, OnOk, IfSome};
ghost use Rattle.std.specs.Io.{ReadsAtMost};
ghost use Rattle.inputs.specs.Reads.{Skips};

use std::io;
use std::io::Read;

// Reads until buf is full or the input ends, and answers how many bytes it put at the start of buf.
pub fn read_full<R: Read>(from: &mut R, buf: &mut [u8]) -> io::Result<usize>
    ensures bound { ReadsAtMost result buf.new }
    ensures bytes { IfOk result (λ n. IfSome (R.remaining from.old) (λ xs. take n buf.new ≡ take (length buf.old) xs)) }
    ensures rest { OnOk result (Skips (length buf.old) (R.remaining from.old) (R.remaining from.new)) }
{
    let mut done = 0;
    // not a `for`: each read says how far it came
    while done < buf.len() {
        let n = from.read(&mut buf[done..])?;
        if n == 0 {
            break;
        }
        done += n;
    }
    Ok(done)
}
