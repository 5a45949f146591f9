// Readers of expressions and conditions: where what stands at a place ends, or why it is refused.
ghost use Rattle.std.specs.Prelude.{◌≡◌};
ghost use Rattle.definitions.specs.Grammar.{read_of, byte_at, below_at, constant_at, variable_at, expr_at, cond_at};
ghost use Rattle.readers.specs.Readings.{tag_at, due_of, told_below, second};

use definitions::{ByNumber, Reason, Refusal, refuse};

// The byte at a place, or that the rule ends early.
fn byte_at(s: &[u8], at: usize) -> Result<u8, Refusal>
    ensures { result ≡ due_of (byte_at s.now at) }
{
    s.get(at).copied().ok_or(Reason::EndsEarly.at(s.len()))
}

// The tag that is due at a place. The end of the rule is told before the missing level, and both before what the tag is.
pub fn read_tag(s: &[u8], at: usize, left: u8) -> Result<u8, Refusal>
    ensures { result ≡ due_of (tag_at left s.now at) }
{
    let tag = byte_at(s, at)?;
    if left == 0 {
        return Err(Reason::TooDeep.at(at));
    }
    Ok(tag)
}

// A constant's four bytes.
fn read_constant(s: &[u8], at: usize) -> Result<usize, Refusal>
    ensures { result ≡ read_of (constant_at s.now at) }
{
    if s.len().saturating_sub(at) < 4 {
        return Err(Reason::EndsEarly.at(s.len()));
    }
    Ok(at + 4)
}

// A byte that names one of so many, or it is refused for this reason.
pub fn read_named(s: &[u8], at: usize, high: u8, why: Reason) -> Result<usize, Refusal>
    ensures { result ≡ read_of (below_at high why s.now at) }
{
    let k = byte_at(s, at)?;
    if k < high {
        Ok(at + 1)
    } else {
        Err(why.at(at))
    }
}

// The same by a number, which may be none of the table's.
pub fn read_below(s: &[u8], at: usize, high: u8, number: u8) -> Result<usize, ByNumber>
    ensures { result ≡ told_below high number s.now at }
{
    match s.get(at) {
        None => refuse(Reason::EndsEarly.number(), s.len()),
        Some(k) if *k < high => Ok(at + 1),
        Some(_) => refuse(number, at),
    }
}

// A variable's byte, which has to be below v.
pub fn read_variable(s: &[u8], at: usize, v: u8) -> Result<usize, Refusal>
    ensures { result ≡ read_of (variable_at v s.now at) }
{
    read_named(s, at, v, Reason::BadVariable)
}

// The expression at a place, where so many levels may still stand; what it holds has one less:
// a cycle with the reader of conditions, as document 01 asks.
#[cycle(read_cond_read_expr_read_two)]
#[tactic(auto, using(crate::proofs::Laws::of_expr))]
pub fn read_expr(s: &[u8], at: usize, v: u8, left: u8) -> Result<usize, Refusal>
    ensures { result ≡ read_of (expr_at left v s.now at) }
{
    let tag = read_tag(s, at, left)?;
    let next = at + 1;
    let less = left - 1;
    match tag {
        0x01 => read_constant(s, next),
        0x02 => read_variable(s, next, v),
        0x03 => read_expr(s, next, v, less),
        0x04..=0x08 => read_two(s, next, v, less),
        0x09 => {
            let n = read_cond(s, next, v, less)?;
            read_two(s, n, v, less)
        }
        _ => Err(Reason::BadTag.at(at)),
    }
}

// Two expressions, one after the other.
#[cycle(read_cond_read_expr_read_two)]
#[tactic(auto, using(crate::proofs::Laws::of_expr))]
fn read_two(s: &[u8], at: usize, v: u8, left: u8) -> Result<usize, Refusal>
    ensures { result ≡ read_of (second (expr_at left v s.now) at) }
{
    let n = read_expr(s, at, v, left)?;
    read_expr(s, n, v, left)
}

// The condition at a place, as `read_expr` goes.
#[cycle(read_cond_read_expr_read_two)]
#[tactic(auto, using(crate::proofs::Laws::of_expr))]
pub fn read_cond(s: &[u8], at: usize, v: u8, left: u8) -> Result<usize, Refusal>
    ensures { result ≡ read_of (cond_at left v s.now at) }
{
    let tag = read_tag(s, at, left)?;
    let next = at + 1;
    let less = left - 1;
    match tag {
        0x10 | 0x11 => read_two(s, next, v, less),
        0x12 => read_cond(s, next, v, less),
        0x13 | 0x14 => {
            let n = read_cond(s, next, v, less)?;
            read_cond(s, n, v, less)
        }
        _ => Err(Reason::BadTag.at(at)),
    }
}
