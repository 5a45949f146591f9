// Readers of endings, statements and blocks: where what stands at a place ends, or why it is refused.
ghost use Rattle.std.specs.Prelude.{◌≡◌};
ghost use Rattle.definitions.specs.Grammar.{read_of, end_at, block_at};
ghost use Rattle.readers.specs.Readings.{begins, stmt_at};

use crate::exprs::{read_cond, read_expr, read_named, read_tag, read_variable};
use definitions::{DEPTH, LEVELS, Reason, Refusal};

// The ending at a place: an if holds two more, with a level less.
#[tactic(auto, using(crate::proofs::BlockLaws::of_end))]
pub fn read_end(s: &[u8], at: usize, v: u8, blocks: u8, left: u8) -> Result<usize, Refusal>
    ensures { result ≡ read_of (end_at left blocks v s.now at) }
{
    let tag = read_tag(s, at, left)?;
    let next = at + 1;
    let less = left - 1;
    match tag {
        0x30 | 0x31 => read_named(s, next, blocks, Reason::BadTarget),
        0x32 => Ok(next),
        0x33 => {
            let n = read_cond(s, next, v, DEPTH)?;
            let m = read_end(s, n, v, blocks, less)?;
            read_end(s, m, v, blocks, less)
        }
        _ => Err(Reason::BadTag.at(at)),
    }
}

// Whether a statement begins at a place; where none does, an ending is due.
pub fn begins_stmt(s: &[u8], at: usize) -> bool
    ensures { result ≡ begins s.now at }
{
    matches!(s.get(at), Some(0x20 | 0x21))
}

// The statement at a place: a set's variable and expression, or an emit's expression.
#[tactic(auto, using(crate::proofs::BlockLaws::of_stmt))]
pub fn read_stmt(s: &[u8], at: usize, v: u8) -> Result<usize, Refusal>
    ensures { result ≡ read_of (stmt_at v s.now at) }
{
    let tag = read_tag(s, at, 1)?;
    let next = at + 1;
    match tag {
        0x20 => {
            let n = read_variable(s, next, v)?;
            read_expr(s, n, v, DEPTH)
        }
        0x21 => read_expr(s, next, v, DEPTH),
        _ => Err(Reason::BadTag.at(at)),
    }
}

// The block at a place: its statements, then its ending.
pub fn read_block(s: &[u8], at: usize, v: u8, blocks: u8) -> Result<usize, Refusal>
    ensures { result ≡ read_of (block_at blocks v s.now at) }
{
    let mut next = at;
    // not a `for`: each statement says where the next one begins
    while begins_stmt(s, next) {
        next = read_stmt(s, next, v)?;
    }
    read_end(s, next, v, blocks, LEVELS)
}
