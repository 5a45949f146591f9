// Passing over what stands at a place, token by token, without reading it as a tree.
ghost use Rattle.std.specs.Prelude.{◌≡◌, length};
ghost use Rattle.definitions.specs.Grammar.{longest};
ghost use Rattle.evaluators.specs.Skip.{token_of, past};

use crate::Rule;

// How many bytes a token has, its tag among them. As `flows::width_of` but for a set's tag, which stands in none of these: one function would need that said in both contracts.
fn bytes_of(tag: u8) -> usize
    ensures { result ≡ (token_of tag).bytes }
{
    match tag {
        0x01 => 5,
        0x02 | 0x30 | 0x31 => 2,
        _ => 1,
    }
}

// How many expressions, conditions or endings follow it.
fn items_of(tag: u8) -> usize
    ensures { result ≡ (token_of tag).items }
{
    match tag {
        0x03 | 0x12 => 1,
        0x04 | 0x05 | 0x06 | 0x07 | 0x08 | 0x10 | 0x11 | 0x13 | 0x14 => 2,
        0x09 | 0x33 => 3,
        _ => 0,
    }
}

// The place after what stands at `at`: passed over token by token, not read as a tree.
pub fn skip(s: &Rule, at: usize) -> usize
    requires { length s.now ≡ longest }
    ensures { result ≡ past 1 s.now at }
{
    let mut due: usize = 1;
    let mut i = at;
    // not a `for`: each token says where the next one is, and how many are due
    while due > 0 && i < s.len() {
        let tag = s[i];
        due = due - 1 + items_of(tag);
        i += bytes_of(tag);
    }
    i
}
