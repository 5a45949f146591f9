// The input and output columns of a rule's blocks, each variable by itself: the blocks that need it are the smallest set that is closed
// backwards under edges. Also a mask's bits, and a column's place in a line.
#![tactic(auto)]

ghost use Rattle.std.specs.Prelude.{◌≡◌, false, ◌*◌, not, cond, ◌&&◌, ◌||◌, ℕ, ◌+◌, ◌≤◌, ◌<◌, get_or, eqb};
ghost use Rattle.definitions.specs.Grammar.{most_variables, most_blocks};
ghost use Rattle.definitions.specs.Columns.{Flow, some, among};
ghost use Rattle.definitions.specs.Smallest.{Smallest};
ghost use Rattle.definitions.specs.Plan.{bit_of};
ghost use Rattle.definitions.specs.Batch.{count_to};
ghost use Rattle.closure.specs.Tables.{edge_in, variable_in, passing, Tables, Columned};
ghost use Rattle.closure.specs.Sweep.{Sweep};

use definitions::{BLOCKS, VARIABLES};

// A test for each block; for each block a test for each block; for each block a test for each variable.
pub type Blocks = [bool; BLOCKS];

pub type Edges = [bool; BLOCKS * BLOCKS];

pub type Variables = [bool; BLOCKS * VARIABLES];

// The blocks below n for which a test holds.
pub fn blocks_where<F: Fn(usize) -> bool>(n: usize, test: F) -> Blocks
    requires size { n ≤ most_blocks }
    requires callable { (b : ℕ) → b < n → F.pre test b }
    ensures { (b : ℕ) → b < n → F.post test b (among result b) }
{
    let mut out = [false; BLOCKS];
    for b in 0..n {
        out[b] = test(b);
    }
    out
}

// A table of one row a block: at each place of a row below n, whether a test holds of the block and the place.
fn rows_where<const WIDTH: usize, const SIZE: usize, F: Fn(usize, usize) -> bool>(
    n: usize,
    test: F,
) -> [bool; SIZE]
    requires width { 0 < WIDTH }
    requires size { n * WIDTH ≤ SIZE }
    requires callable { (b t : ℕ) → b < n → t < WIDTH → F.pre test b t }
    ensures { (b t : ℕ) → b < n → t < WIDTH → F.post test b t (get_or result (b * WIDTH + t) false) }
{
    let mut out = [false; SIZE];
    for i in 0..n * WIDTH {
        out[i] = test(i / WIDTH, i % WIDTH);
    }
    out
}

// The edges from the blocks below n for which a test holds of both ends.
pub fn edges_where<F: Fn(usize, usize) -> bool>(n: usize, test: F) -> Edges
    requires size { n ≤ most_blocks }
    requires callable { (b t : ℕ) → b < n → t < most_blocks → F.pre test b t }
    ensures { (b t : ℕ) → b < n → t < most_blocks → F.post test b t (edge_in result b t) }
{
    rows_where::<BLOCKS, _, F>(n, test)
}

// The variables of each block below n for which a test holds.
pub fn variables_where<F: Fn(usize, usize) -> bool>(n: usize, test: F) -> Variables
    requires size { n ≤ most_blocks }
    requires callable { (b k : ℕ) → b < n → k < most_variables → F.pre test b k }
    ensures { (b k : ℕ) → b < n → k < most_variables → F.post test b k (variable_in result b k) }
{
    rows_where::<VARIABLES, _, F>(n, test)
}

// Some edge goes from b into the set.
fn feeds(n: usize, edges: &Edges, set: &Blocks, b: usize) -> bool
    requires { (n ≤ most_blocks) × (b < most_blocks) }
    ensures { result ≡ some n (λ t. edge_in edges.now b t && among set.now t) }
{
    (0..n).any(|t| edges[b * BLOCKS + t] && set[t])
}

// One sweep in place from the last number to the first, in which a number that is added counts at once. Says whether it added one.
fn sweep(n: usize, edges: &Edges, set: &mut Blocks) -> bool
    requires { n ≤ most_blocks }
    ensures { Sweep n (edge_in edges.now) (among set.old) 0 (among set.new) result }
{
    let mut more = false;
    for b in (0..n).rev() {
        if !set[b] && feeds(n, edges, set, b) {
            set[b] = true;
            more = true;
        }
    }
    more
}

// The smallest set that holds the seed and, with the end of an edge, its start: sweeps in place until one adds nothing.
pub fn smallest(n: usize, seed: &Blocks, edges: &Edges) -> Blocks
    requires { n ≤ most_blocks }
    ensures { Smallest n (among seed.now) (edge_in edges.now) (among result) }
{
    let mut set = *seed;
    // not a `for`: no index, and how many sweeps it takes is found out on the way
    while sweep(n, edges, &mut set) {}
    set
}

// Whether block t is the entry, or some jump goes there.
fn restarts(n: usize, jumps: &Edges, t: usize) -> bool
    requires { (n ≤ most_blocks) × (t < most_blocks) }
    ensures { result ≡ (eqb t 0 || some n (λ b. edge_in jumps.now b t)) }
{
    t == 0 || (0..n).any(|b| jumps[b * BLOCKS + t])
}

// The blocks that have variable k among their inputs. A need passes back to a block that names another and does not set the variable, and between
// any two blocks in J.
fn needing(n: usize, k: usize, fv: &Variables, bv: &Variables, names: &Edges, j: &Blocks) -> Blocks
    requires { (n ≤ most_blocks) × (k < most_variables) }
    ensures { Smallest n (λ b. variable_in fv.now b k) (passing bv.now names.now j.now k) (among result) }
{
    let seed = blocks_where(n, |b| fv[b * VARIABLES + k]);
    let edges = edges_where(
        n,
        |b, t| names[b * BLOCKS + t] && !bv[b * VARIABLES + k] || j[b] && j[t],
    );
    smallest(n, &seed, &edges)
}

// A power of two added to the masks of the blocks of a set.
fn mark(n: usize, masks: &mut [u16; BLOCKS], set: &Blocks, power: u16)
    requires { (n ≤ most_blocks) × ((b : ℕ) → b < n → get_or masks.old b 0 + power < 65536) }
    ensures { (b : ℕ) → b < n → get_or masks.new b 0 ≡ get_or masks.old b 0 + cond (among set.now b) power 0 }
{
    for b in 0..n {
        if set[b] {
            masks[b] += power;
        }
    }
}

// The masks of each block's inputs and outputs, and J.
#[derive(Drop)]
pub struct ColumnSets {
    pub inputs: [u16; BLOCKS],
    pub outputs: [u16; BLOCKS],
    pub j: Blocks,
}

// The columns of the rule that the tables tell of: what each block reads first, sets, and names by gotos and by jumps.
pub fn columns(
    n: usize,
    v: usize,
    fv: &Variables,
    bv: &Variables,
    gotos: &Edges,
    jumps: &Edges,
) -> ColumnSets
    requires { (n ≤ most_blocks) × (v ≤ most_variables) }
    ensures { (g : Flow) → Tables g n v fv.now bv.now gotos.now jumps.now
        → Columned g n v result.inputs result.outputs result.j }
{
    let names = edges_where(n, |b, t| gotos[b * BLOCKS + t] || jumps[b * BLOCKS + t]);
    let j = blocks_where(n, |t| restarts(n, jumps, t));
    let mut inputs = [0u16; BLOCKS];
    let mut outputs = [0u16; BLOCKS];
    for k in 0..v {
        let need = needing(n, k, fv, bv, &names, &j);
        let out = blocks_where(n, |b| feeds(n, &names, &need, b));
        mark(n, &mut inputs, &need, 1 << k);
        mark(n, &mut outputs, &out, 1 << k);
    }
    ColumnSets { inputs, outputs, j }
}

// The mask holds variable k.
pub fn has(mask: u16, k: usize) -> bool
    requires { k < most_variables }
    ensures { result ≡ bit_of mask k }
{
    (mask >> k) % 2 == 1
}

// A column's place in a line: the number of ones below its bit.
pub fn place(mask: u16, k: usize) -> usize
    requires { k ≤ most_variables }
    ensures { result ≡ count_to k (bit_of mask) }
{
    let lower = (mask as u32) % (1u32 << k);
    lower.count_ones() as usize
}
