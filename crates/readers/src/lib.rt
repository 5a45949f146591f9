// The readers of a rule's bytes: whether a rule stands there, or what is wrong with it first.
#![tactic(auto)]

pub mod blocks;
pub mod exprs;

ghost use Rattle.std.specs.Prelude.{◌≡◌};
ghost use Rattle.definitions.specs.Grammar.{read_of, blocks_to, parsed};
ghost use Rattle.readers.specs.Readings.{header_at};

use definitions::{BLOCKS, Reason, Refusal, VARIABLES};

// The header: its four bytes are there, and the first bad one is told.
fn read_header(s: &[u8]) -> Result<usize, Refusal>
    ensures { result ≡ read_of (header_at s.now) }
{
    if s.len() < 4 {
        return Err(Reason::EndsEarly.at(s.len()));
    }
    if s[0] != 1 {
        return Err(Reason::BadHeader.at(0));
    }
    if !(1..=VARIABLES as u8).contains(&s[1]) {
        return Err(Reason::BadHeader.at(1));
    }
    if s[1] < s[2] {
        return Err(Reason::BadHeader.at(2));
    }
    if !(1..=BLOCKS as u8).contains(&s[3]) {
        return Err(Reason::BadHeader.at(3));
    }
    Ok(4)
}

// These many blocks, right after the header.
fn read_blocks(s: &[u8], v: u8, blocks: u8) -> Result<usize, Refusal>
    ensures { result ≡ read_of (blocks_to blocks v s.now blocks) }
{
    let mut at = 4;
    for _block in 0..blocks {
        at = blocks::read_block(s, at, v, blocks)?;
    }
    Ok(at)
}

// The whole of the bytes, read to their end: nothing may follow the last block.
#[tactic(auto, using(crate::proofs::RuleLaws::of_header))]
pub fn read_tree(s: &[u8]) -> Result<usize, Refusal>
    ensures { result ≡ read_of (parsed s.now) }
{
    read_header(s)?;
    let n = read_blocks(s, s[1], s[3])?;
    if n < s.len() {
        return Err(Reason::BytesAfter.at(n));
    }
    Ok(n)
}
