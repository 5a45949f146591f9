// What a request holds, read from the input.
ghost use Rattle.std.specs.Prelude.{◌≡◌, ◌*◌, ◌≤◌, ◌<◌, length, take, IfOk, OnOk, IfSome, IsErrOf};
ghost use Rattle.inputs.specs.Reads.{Skips};
ghost use Rattle.values.specs.Words.{constants_in};
ghost use Rattle.requests.specs.Parts.{number_in, number_of, IsCut, first_numbers};
ghost use Rattle.requests.specs.declared.input.Unserved.TheVariants.{Io, NoRequest};

use inputs::read_full;
use std::io;
use std::io::Read;

// The most bytes or words that a part of a request has.
pub const MOST: usize = 8192;

// Why a request is not served: reading or printing failed, or there is no such kind, the request is cut short, or a part of it is too long.
#[derive(Drop)]
pub enum Unserved {
    Io(io::Error),
    NoRequest,
}

impl From<io::Error> for Unserved {
    ghost from_gives = { λ e r. r ≡ Io e };

    fn from(e: io::Error) -> Unserved {
        Unserved::Io(e)
    }
}

// The next number of four bytes, or None where the input ends before it.
pub fn next_number<R: Read>(from: &mut R) -> Result<Option<u32>, Unserved>
    ensures value { IfOk result (λ n. IfSome (R.remaining from.old) (λ xs. n ≡ number_of xs)) }
    ensures whole { OnOk result (IfSome (R.remaining from.old) (λ xs. ¬ IsCut xs)) }
    ensures cut { IsErrOf result NoRequest → IfSome (R.remaining from.old) IsCut }
    ensures rest { OnOk result (Skips 4 (R.remaining from.old) (R.remaining from.new)) }
    ensures cut_rest { IsErrOf result NoRequest → Skips 4 (R.remaining from.old) (R.remaining from.new) }
{
    let mut b = [0u8; 4];
    match read_full(from, &mut b)? {
        0 => Ok(None),
        4 => Ok(Some(u32::from_le_bytes(b))),
        _ => Err(Unserved::NoRequest),
    }
}

// The next number of a request.
pub fn number<R: Read>(from: &mut R) -> Result<u32, Unserved>
    ensures value { IfOk result (λ n. IfSome (R.remaining from.old) (λ xs. (4 ≤ length xs) × (n ≡ number_in xs))) }
    ensures cut { IsErrOf result NoRequest → IfSome (R.remaining from.old) (λ xs. length xs < 4) }
    ensures rest { OnOk result (Skips 4 (R.remaining from.old) (R.remaining from.new)) }
{
    next_number(from)?.ok_or(Unserved::NoRequest)
}

// How many elements a part of a request has.
pub fn size<R: Read>(from: &mut R) -> Result<usize, Unserved>
    ensures value { IfOk result (λ n. IfSome (R.remaining from.old) (λ xs. n ≡ number_in xs)) }
    ensures bound { IfOk result (λ n. n ≤ MOST) }
{
    let n = number(from)? as usize;
    if MOST < n {
        return Err(Unserved::NoRequest);
    }
    Ok(n)
}

// A part of a request: its size, and then so many elements, which `fill` reads to the start of buf.
pub fn part<'a, T, R: Read, F: FnOnce(&mut R, &mut [T]) -> Result<(), Unserved>>(
    from: &mut R,
    buf: &'a mut [T; MOST],
    fill: F,
) -> Result<&'a [T], Unserved>
    requires { (r : _) (b : _) → length b.now ≤ MOST → F.pre fill r b }
    ensures { IfOk result (λ elements. IfSome (R.remaining from.old) (λ xs. length elements.now ≡ number_in xs)) }
{
    let n = size(from)?;
    let elements = &mut buf[..n];
    fill(from, elements)?;
    Ok(elements)
}

// Fills buf with bytes.
pub fn fill<R: Read>(from: &mut R, buf: &mut [u8]) -> Result<(), Unserved>
    ensures whole { OnOk result (IfSome (R.remaining from.old) (λ xs. length buf.old ≤ length xs)) }
    ensures cut { IsErrOf result NoRequest → IfSome (R.remaining from.old) (λ xs. length xs < length buf.old) }
    ensures bytes { OnOk result (IfSome (R.remaining from.old) (λ xs. buf.new ≡ take (length buf.old) xs)) }
    ensures rest { OnOk result (Skips (length buf.old) (R.remaining from.old) (R.remaining from.new)) }
    ensures cut_rest { IsErrOf result NoRequest → Skips (length buf.old) (R.remaining from.old) (R.remaining from.new) }
{
    if read_full(from, buf)? < buf.len() {
        return Err(Unserved::NoRequest);
    }
    Ok(())
}

// Fills buf with numbers.
pub fn fill_numbers<R: Read>(from: &mut R, buf: &mut [u32]) -> Result<(), Unserved>
    ensures whole { OnOk result (IfSome (R.remaining from.old) (λ xs. 4 * length buf.old ≤ length xs)) }
    ensures cut { IsErrOf result NoRequest → IfSome (R.remaining from.old) (λ xs. length xs < 4 * length buf.old) }
    ensures numbers { OnOk result (IfSome (R.remaining from.old) (λ xs. buf.new ≡ first_numbers xs (length buf.old))) }
    ensures rest { OnOk result (Skips (4 * length buf.old) (R.remaining from.old) (R.remaining from.new)) }
{
    for x in buf.iter_mut() {
        *x = number(from)?;
    }
    Ok(())
}

// Fills buf with words of four bytes.
pub fn fill_words<R: Read>(from: &mut R, buf: &mut [i32]) -> Result<(), Unserved>
    requires { length buf.old ≤ MOST }
    ensures whole { OnOk result (IfSome (R.remaining from.old) (λ xs. 4 * length buf.old ≤ length xs)) }
    ensures cut { IsErrOf result NoRequest → IfSome (R.remaining from.old) (λ xs. length xs < 4 * length buf.old) }
    ensures words { OnOk result (IfSome (R.remaining from.old) (λ xs. buf.new ≡ constants_in (take (4 * length buf.old) xs) (length buf.old))) }
    ensures rest { OnOk result (Skips (4 * length buf.old) (R.remaining from.old) (R.remaining from.new)) }
    ensures cut_rest { IsErrOf result NoRequest → Skips (4 * length buf.old) (R.remaining from.old) (R.remaining from.new) }
{
    let mut raw = [0u8; 4 * MOST];
    let bytes = &mut raw[..4 * buf.len()];
    fill(from, bytes)?;
    values::constants(bytes, buf);
    Ok(())
}
