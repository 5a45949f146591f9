// Rule files: a file's rule into the caller's buffer, and a rule's file.
#![tactic(auto)]

ghost use Rattle.std.specs.Prelude.{◌≡◌, ◌≤◌, length};
ghost use Rattle.definitions.specs.Grammar.{read_of, rule_of, longest};
ghost use Rattle.definitions.specs.Calls.{Wrote, to_read, to_write};
ghost use Rattle.rules.specs.Opened.{Opened};

use definitions::{LONGEST, Reason, Refusal};

// Whether the bytes are a rule: read to their end, with no cycle of gotos.
#[tactic(auto, using(crate::proofs::Uncycled::of_tree))]
pub fn read_rule(s: &[u8]) -> Result<usize, Refusal>
    requires { length s.now ≤ longest }
    ensures { result ≡ read_of (rule_of s.now) }
{
    let n = readers::read_tree(s)?;
    let gotos = flows::gotos_of(s);
    let blocks = s[3] as usize;
    match orders::first_cycle(blocks, &gotos) {
        None => Ok(n),
        Some(b) => Err(Reason::GotoCycle.at(b)),
    }
}

// The rule in a file, at the start of a buffer that any rule fits in: its length, or why there is none.
#[tactic(auto, using(crate::proofs::FileLaws::of_scan))]
pub fn open(file: &[u8], rule: &mut [u8]) -> Result<usize, Refusal>
    requires { longest ≤ length rule.old }
    ensures { Opened (to_read file.now) result rule.new }
{
    let n = pages::scan(file)?;
    pages::unpack(file, rule);
    read_rule(&rule[..n])?;
    Ok(n)
}

// A file's rule into out from its start.
pub fn read(file: &[u8], out: &mut [u8]) -> Result<usize, Refusal>
    ensures { Wrote (to_read file.now) out.old result out.new }
{
    let mut rule = [0u8; LONGEST];
    let n = open(file, &mut rule)?;
    if out.len() < n {
        return Err(Reason::NoRoom.at(0));
    }
    buffers::copy_at(out, 0, &rule[..n]);
    Ok(n)
}

// A rule's file into out from its start.
pub fn write(rule: &[u8], out: &mut [u8]) -> Result<usize, Refusal>
    ensures { Wrote (to_write rule.now) out.old result out.new }
{
    let n = rule.len();
    if LONGEST < n {
        return Err(Reason::TooLong.at(0));
    }
    read_rule(rule)?;
    let size = pages::file_size(n);
    if out.len() < size {
        return Err(Reason::NoRoom.at(0));
    }
    pages::put_file(rule, out);
    Ok(size)
}
