// Gotos between blocks in any order: the lowest block on a cycle, the order of evaluation, and whether some goto goes back.
// Row b, column t of a table says that block b has a goto to t.
#![tactic(auto)]

ghost use Rattle.std.specs.Prelude.{◌≡◌, true, ◌↔◌, ℕ, ◌≤◌, ◌<◌, take, MatchOption};
ghost use Rattle.definitions.specs.Grammar.{most_blocks};
ghost use Rattle.definitions.specs.Columns.{some, among};
ghost use Rattle.closure.specs.Tables.{edge_in};
ghost use Rattle.definitions.specs.Paths.{OnCycle, NoCycle};
ghost use Rattle.definitions.specs.Order.{lowest_of, waits, free, order_of, goes_back};
ghost use Rattle.orders.specs.Answers.{First};

use closure::{Blocks, Edges};
use definitions::BLOCKS;

// ---- gotos that go back

// Block b has a goto to a lower one.
fn back_from(edges: &Edges, b: usize) -> bool
    requires { b < most_blocks }
    ensures { result ≡ some b (λ t. edge_in edges.now b t) }
{
    (0..b).any(|t| edges[b * BLOCKS + t])
}

// Some block has a goto to a lower one.
pub fn goes_back(n: usize, edges: &Edges) -> bool
    requires { n ≤ most_blocks }
    ensures { result ≡ goes_back n (edge_in edges.now) }
{
    (0..n).any(|b| back_from(edges, b))
}

// Some block has a goto to itself.
fn stays(n: usize, edges: &Edges) -> bool
    requires { n ≤ most_blocks }
    ensures { result ≡ some n (λ b. edge_in edges.now b b) }
{
    (0..n).any(|b| edges[b * BLOCKS + b])
}

// Every goto goes to a block with a higher number. Most rules are so, and need no search for cycles.
fn rises(n: usize, edges: &Edges) -> bool
    requires { n ≤ most_blocks }
    ensures { result ≡ true → NoCycle n (edge_in edges.now) }
{
    !goes_back(n, edges) && !stays(n, edges)
}

// ---- cycles

// One goto or more lead from b to b.
fn on_cycle(n: usize, edges: &Edges, b: usize) -> bool
    requires { (n ≤ most_blocks) × (b < n) }
    ensures { (result ≡ true) ↔ OnCycle n (edge_in edges.now) b }
{
    let seed = closure::blocks_where(n, |c| edges[c * BLOCKS + b]);
    let set = closure::smallest(n, &seed, edges);
    set[b]
}

// The lowest block that is on a cycle.
pub fn first_cycle(n: usize, edges: &Edges) -> Option<usize>
    requires { n ≤ most_blocks }
    ensures { First n (edge_in edges.now) result }
{
    if rises(n, edges) {
        return None;
    }
    (0..n).find(|&b| on_cycle(n, edges, b))
}

// ---- the order of evaluation

// Some block with a goto to b is not done.
fn is_waiting(n: usize, edges: &Edges, done: &Blocks, b: usize) -> bool
    requires { (n ≤ most_blocks) × (b < n) }
    ensures { result ≡ waits n (edge_in edges.now) (among done.now) b }
{
    (0..n).any(|c| edges[c * BLOCKS + b] && !done[c])
}

// The lowest block that is not done and waits for none.
fn lowest_free(n: usize, edges: &Edges, done: &Blocks) -> Option<usize>
    requires { n ≤ most_blocks }
    ensures { let lowest = lowest_of n (free n (edge_in edges.now) (among done.now)) in MatchOption result (lowest ≡ n) (λ b. b ≡ lowest) }
{
    (0..n).find(|&b| !done[b] && !is_waiting(n, edges, done, b))
}

// The blocks of a relation without cycles, in order of evaluation.
pub fn order(n: usize, edges: &Edges) -> [u8; BLOCKS]
    requires { (n ≤ most_blocks) × NoCycle n (edge_in edges.now) }
    ensures { take n result ≡ order_of n (edge_in edges.now) }
{
    let mut out = [0u8; BLOCKS];
    let mut done = [false; BLOCKS];
    for i in 0..n {
        let b = lowest_free(n, edges, &done).unwrap();
        out[i] = b as u8;
        done[b] = true;
    }
    out
}
