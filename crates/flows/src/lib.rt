// What each block of a rule reads, sets and names, and where it stands. A block's tags, read one after the other with no regard to what holds what, tell it.
#![tactic(auto, unfolding(crate::specs::Marks::tag_width, crate::specs::Marks::carries))]

ghost use Rattle.std.specs.Prelude.{◌≡◌, true, false, ◌&&◌, ◌||◌, ℕ, ◌+◌, ◌<◌, ◌≤◌, eqb, get_or, List};
ghost use Rattle.definitions.specs.Rule.{Block, Rule, size};
ghost use Rattle.definitions.specs.Grammar.{got, most_variables, most_blocks, blocks_to, parsed, longest};
ghost use Rattle.definitions.specs.Columns.{among};
ghost use Rattle.definitions.specs.Paths.{goto_in};
ghost use Rattle.definitions.specs.Smallest.{Smallest};
ghost use Rattle.definitions.specs.Plan.{end_of};
ghost use Rattle.closure.specs.Tables.{edge_in, variable_in};
ghost use Rattle.flows.specs.Flow.{Ruled, Placed, Told};
ghost use Rattle.flows.specs.Marks.{carries, tag_width, tags_in, marks_of, part_in, has, reads_first};
ghost use Rattle.std.specs.Iterator.{YieldsFirst, item_count};

use closure::{Blocks, Edges, Variables, edges_where, smallest, variables_where};
use definitions::BLOCKS;
use readers::blocks::read_block;
use std::marker::Model;

// Where each block begins, and where the last one ends.
pub type Places = [usize; BLOCKS + 1];

// The byte at a place, 0 past the end.
fn byte(s: &[u8], at: usize) -> u8
    ensures { result ≡ get_or s.now at 0 }
{
    s.get(at).copied().unwrap_or(0)
}

// How many bytes on the next tag stands. A tag stays the byte that the definitions name, here and where one is matched: an enum of all of them would be their table once more.
fn width_of(tag: u8) -> usize
    ensures { result ≡ tag_width tag }
{
    match tag {
        0x01 => 5,
        0x02 | 0x20 | 0x30 | 0x31 => 2,
        _ => 1,
    }
}

// The tags of a part of a rule, read from the left, each with the byte after it: seen as the list of those that are left.
#[derive(Drop)]
struct Tags<'a> {
    s: &'a [u8],
    at: usize,
    to: usize,
}

impl<'a> Model for Tags<'a> {
    ghost Value = { List (ℕ × ℕ) };

    ghost view = { λ t. tags_in t.s.now t.at t.to };

    ghost invariant = { λ t. t.to ≤ longest };
}

impl<'a> Iterator for Tags<'a> {
    type Item = (u8, u8);

    ghost next_gives = { YieldsFirst (λ rest. rest) };

    ghost remaining = { item_count (λ rest. rest) };

    fn next(&mut self) -> Option<(u8, u8)> {
        if self.to <= self.at {
            return None;
        }
        let tag = byte(self.s, self.at);
        let x = byte(self.s, self.at + 1);
        self.at += width_of(tag);
        Some((tag, x))
    }
}

// The lowest tag of a statement; those of an ending lie above it, and those of what they hold below.
const STATEMENT: u8 = 0x20;

impl<'a> Tags<'a> {
    // Whether this one is among them, with this operand.
    fn has(mut self, tag: u8, x: u8) -> bool
        requires { carries tag ≡ true }
        ensures { result ≡ has tag x (marks_of self.entry) }
    {
        self.any(|m| m == (tag, x))
    }

    // Whether variable k is read before it is set.
    fn reads_first(self, k: u8) -> bool
        ensures { result ≡ reads_first k false (marks_of self.entry) }
    {
        let mut setting = false;
        for (tag, x) in self {
            if (tag, x) == (0x02, k) {
                return true;
            }
            // the next statement or the ending: a set before it now shields
            if STATEMENT <= tag {
                if setting {
                    return false;
                }
                setting = (tag, x) == (0x20, k);
            }
        }
        false
    }
}

// Where each of n blocks begins and where the last one ends, as far as they can be read: each begins where the one before ends.
fn places_of(s: &[u8], n: u8, v: u8) -> Places
    requires { n ≤ most_blocks }
    ensures { (bs : List Block) (m : ℕ) → blocks_to n v s.now n ≡ got bs m → (b : ℕ) → b ≤ n → get_or result b 0 ≡ end_of (blocks_to n v s.now b) }
{
    let mut out = [0usize; BLOCKS + 1];
    out[0] = 4;
    for b in 0..n as usize {
        let Ok(next) = read_block(s, out[b], v, n) else {
            return out;
        };
        out[b + 1] = next;
    }
    out
}

// A rule's bytes, and where each of its n blocks begins and the last one ends.
#[derive(Drop)]
struct Body<'a> {
    s: &'a [u8],
    n: usize,
    places: Places,
    ghost few: { n ≤ most_blocks },
    ghost near: { (b : ℕ) → b ≤ n → get_or places b 0 ≤ longest },
}

impl<'a> Body<'a> {
    fn new(s: &'a [u8]) -> Body<'a>
        requires { Ruled s.now }
        ensures { (r : Rule) (m : ℕ) → parsed s.now ≡ got r m → Placed r s.now result.s.now result.n result.places }
    {
        let n = s[3];
        let places = places_of(s, n, s[1]);
        Body {
            s,
            n: n as usize,
            places,
        }
    }

    // The tags of block b.
    fn tags(&self, b: usize) -> Tags<'a>
        requires { b < self.now.n }
        ensures { marks_of result ≡ part_in self.now.s.now self.now.places b }
    {
        Tags {
            s: self.s,
            at: self.places[b],
            to: self.places[b + 1],
        }
    }

    // The variables that each block reads before it sets them, if it counts.
    fn reads(&self, counts: &Blocks) -> Variables
        ensures { (b k : ℕ) → b < self.now.n → k < most_variables
            → variable_in result b k ≡ (among counts.now b && reads_first k false (part_in self.now.s.now self.now.places b)) }
    {
        variables_where(
            self.n,
            |b, k| counts[b] && self.tags(b).reads_first(k as u8),
        )
    }

    // The variables that each block sets.
    fn sets(&self) -> Variables
        ensures { (b k : ℕ) → b < self.now.n → k < most_variables → variable_in result b k ≡ has 0x20 k (part_in self.now.s.now self.now.places b) }
    {
        variables_where(self.n, |b, k| self.tags(b).has(0x20, k as u8))
    }

    // The blocks that each block names by a goto, or by a jump, as the tag says.
    fn named(&self, tag: u8) -> Edges
        requires { carries tag ≡ true }
        ensures { (b t : ℕ) → b < self.now.n → t < most_blocks → edge_in result b t ≡ has tag t (part_in self.now.s.now self.now.places b) }
    {
        edges_where(self.n, |b, t| self.tags(b).has(tag, t as u8))
    }
}

// Block 0, and with a block all that it names.
fn led_to(n: usize, gotos: &Edges, jumps: &Edges) -> Blocks
    requires { n ≤ most_blocks }
    ensures { Smallest n (λ b. eqb b 0) (λ t b. edge_in gotos.now b t || edge_in jumps.now b t) (among result) }
{
    let mut entry = [false; BLOCKS];
    entry[0] = true;
    // from each block to every block that names it
    let edges = edges_where(n, |t, b| gotos[b * BLOCKS + t] || jumps[b * BLOCKS + t]);
    smallest(n, &entry, &edges)
}

// Of n blocks' edges those of the blocks that count.
fn only(n: usize, counts: &Blocks, edges: &Edges) -> Edges
    requires { n ≤ most_blocks }
    ensures { (b t : ℕ) → b < n → t < most_blocks → edge_in result b t ≡ (among counts.now b && edge_in edges.now b t) }
{
    edges_where(n, |b, t| counts[b] && edges[b * BLOCKS + t])
}

// The gotos of a rule, of all its blocks, whether or not anything leads to them.
pub fn gotos_of(s: &[u8]) -> Edges
    requires { Ruled s.now }
    ensures { (r : Rule) (m : ℕ) → parsed s.now ≡ got r m → (b t : ℕ) → b < size r → t < size r → edge_in result b t ≡ goto_in r b t }
{
    Body::new(s).named(0x30)
}

// Where the blocks of a rule stand, and its flow: FV and BV, gotos and jumps.
#[derive(Drop)]
pub struct Flows {
    pub places: Places,
    pub fv: Variables,
    pub bv: Variables,
    pub gotos: Edges,
    pub jumps: Edges,
}

pub fn flow_of(s: &[u8]) -> Flows
    requires { Ruled s.now }
    ensures { (r : Rule) (m : ℕ) → parsed s.now ≡ got r m → Told r s.now result.places result.fv result.bv result.gotos result.jumps }
{
    let body = Body::new(s);
    let all_gotos = body.named(0x30);
    let all_jumps = body.named(0x31);
    let led = led_to(body.n, &all_gotos, &all_jumps);
    let fv = body.reads(&led);
    let bv = body.sets();
    let gotos = only(body.n, &led, &all_gotos);
    let jumps = only(body.n, &led, &all_jumps);
    let places = body.places;
    Flows {
        places,
        fv,
        bv,
        gotos,
        jumps,
    }
}
