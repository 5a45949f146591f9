// The plan's bytes, written one part after the other.
ghost use Rattle.std.specs.Prelude.{◌≡◌, List, ◌++◌, cond, ℕ, ◌+◌, ◌-◌, ◌*◌, ◌≤◌, ◌<◌, length, get_or};
ghost use Rattle.definitions.specs.Columns.{flow_of, among};
ghost use Rattle.definitions.specs.Plan.{le16, order_bytes, head_size, bodies_at, entries_to, plan_of};
ghost use Rattle.definitions.specs.Grammar.{most_blocks, blocks_in};
ghost use Rattle.definitions.specs.Rule.{Rule};
ghost use Rattle.buffers.specs.Words.{over};
ghost use Rattle.plans.specs.Laid.{IsRule, OrderFor, size_for, Laid, Inside, Room};

use closure::ColumnSets;
use flows::Places;

// Block b's entry: the offset of its body, its input and output masks, and whether it is in J.
fn put_entry(out: &mut [u8], b: usize, offset: u16, sets: &ColumnSets)
    requires { (b < most_blocks) × (6 + 8 * b + 8 ≤ length out.old) }
    ensures { out.new ≡ over out.old (6 + 8 * b)
        (le16 offset ++ (le16 (get_or sets.now.inputs b 0) ++ (le16 (get_or sets.now.outputs b 0) ++ le16 (cond (among sets.now.j b) 1 0)))) }
{
    let at = 6 + 8 * b;
    buffers::put16_at(out, at, offset);
    buffers::put16_at(out, at + 2, sets.inputs[b]);
    buffers::put16_at(out, at + 4, sets.outputs[b]);
    buffers::put16_at(out, at + 6, u16::from(sets.j[b]));
}

// The entries of n blocks, one after the other from byte 6 on; the bodies begin at head.
fn put_entries(out: &mut [u8], n: usize, head: usize, places: &Places, sets: &ColumnSets)
    requires { (n ≤ most_blocks) × ((head ≤ head_size most_blocks most_blocks) × ((6 + 8 * n ≤ length out.old) × Inside n places.now)) }
    ensures { (r : Rule) (s : List ℕ) → Laid r s n head places.now sets.now → out.new ≡ over out.old 6 (entries_to (flow_of r) r s n) }
{
    for b in 0..n {
        let offset = (places[b] - 4 + head) as u16;
        put_entry(out, b, offset, sets);
    }
}

// The bytes of a plan of n blocks, so many of them listed in its order, before the blocks' bodies.
fn head_size(n: usize, ordered: usize) -> usize
    requires { (n ≤ 255) × (ordered ≤ most_blocks) }
    ensures { result ≡ head_size n ordered }
{
    6 + 8 * n + ordered
}

// The size of the plan of a rule with these order bytes.
#[tactic(auto, using(crate::proofs::Ruling::of_rule))]
pub fn plan_size(rule: &[u8], order: &[u8]) -> usize
    requires { IsRule rule.now × OrderFor rule.now order.now }
    ensures { result ≡ size_for rule.now order.now }
{
    head_size(rule[3] as usize, order.len()) + rule.len() - 4
}

// Where a plan's bodies begin: at the offset of block 0.
pub fn bodies_at(plan: &[u8]) -> usize
    requires { 8 ≤ length plan.now }
    ensures { result ≡ bodies_at plan.now }
{
    buffers::word_at(plan, 6) as usize
}

// A plan's bytes from the start of out: the header, LC, the entries, the order, the rule without its header.
pub fn lay(rule: &[u8], order: &[u8], places: &Places, sets: &ColumnSets, out: &mut [u8])
    requires { Room rule.now order.now places.now out.old }
    ensures { (r : Rule) → order.now ≡ order_bytes r
        → Laid r rule.now (blocks_in rule.now) (head_size (blocks_in rule.now) (length order.now)) places.now sets.now
        → out.new ≡ over out.old 0 (plan_of r rule.now) }
{
    let n = rule[3] as usize;
    let entries = head_size(n, 0);
    let head = entries + order.len();
    buffers::copy_at(out, 0, &rule[..4]);
    buffers::put16_at(out, 4, sets.inputs[0]);
    put_entries(out, n, head, places, sets);
    buffers::copy_at(out, entries, order);
    buffers::copy_at(out, head, &rule[4..]);
}
