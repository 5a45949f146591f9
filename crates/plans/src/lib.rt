// A rule's plan: the compiler, and whether bytes are a plan.
#![tactic(auto)]

mod bytes;

ghost use Rattle.std.specs.Prelude.{◌≡◌, ℕ, ◌≤◌, length};
ghost use Rattle.definitions.specs.Rule.{Rule};
ghost use Rattle.definitions.specs.Grammar.{got, rule_of, longest};
ghost use Rattle.definitions.specs.Plan.{plan_of, same, planned};
ghost use Rattle.definitions.specs.Calls.{Wrote, to_compile, columns_reply};
ghost use Rattle.buffers.specs.Words.{over};
ghost use Rattle.plans.specs.Laid.{IsRule, OrderFor, size_for};
ghost use Rattle.plans.specs.Taken.{Extracted, Taking};

pub use bytes::bodies_at;
use definitions::{BLOCKS, LONGEST, LONGEST_PLAN, Reason, Refusal};

// The order bytes of a rule's plan, in the room that is given: none, or one for each block.
#[tactic(auto, using(crate::proofs::Ruling::of_rule))]
fn order_of<'a>(rule: &[u8], room: &'a mut [u8; BLOCKS]) -> &'a [u8]
    requires { IsRule rule.now }
    ensures { OrderFor rule.now result.now }
{
    let n = rule[3] as usize;
    let gotos = flows::gotos_of(rule);
    if !orders::goes_back(n, &gotos) {
        return &[];
    }
    *room = orders::order(n, &gotos);
    &room[..n]
}

// The plan of a rule with these order bytes, into out from its start.
#[tactic(auto, using(crate::proofs::Ruling::of_rule))]
fn put_plan(rule: &[u8], order: &[u8], out: &mut [u8])
    requires { IsRule rule.now × (OrderFor rule.now order.now × (size_for rule.now order.now ≤ length out.old)) }
    ensures { (r : Rule) (m : ℕ) → rule_of rule.now ≡ got r m → out.new ≡ over out.old 0 (plan_of r rule.now) }
{
    let f = flows::flow_of(rule);
    let sets = closure::columns(
        rule[3] as usize,
        rule[1] as usize,
        &f.fv,
        &f.bv,
        &f.gotos,
        &f.jumps,
    );
    bytes::lay(rule, order, &f.places, &sets, out);
}

// A file's plan into out from its start.
#[tactic(auto, using(crate::proofs::Compiling::ready_ruled))]
pub fn compile(file: &[u8], out: &mut [u8]) -> Result<usize, Refusal>
    ensures { Wrote (to_compile file.now) out.old result out.new }
{
    let mut buffer = [0u8; LONGEST];
    let n = rules::open(file, &mut buffer)?;
    let rule = &buffer[..n];
    let mut room = [0u8; BLOCKS];
    let order = order_of(rule, &mut room);
    let size = bytes::plan_size(rule, order);
    if out.len() < size {
        return Err(Reason::NoRoom.at(0));
    }
    put_plan(rule, order, out);
    Ok(size)
}

// Whether the rule compiles to these bytes.
#[tactic(auto, using(crate::proofs::Ruling::of_rule))]
fn compiles_to(rule: &[u8], plan: &[u8]) -> bool
    requires { IsRule rule.now }
    ensures { (r : Rule) (m : ℕ) → rule_of rule.now ≡ got r m → result ≡ same (plan_of r rule.now) plan.now }
{
    let mut room = [0u8; BLOCKS];
    let order = order_of(rule, &mut room);
    let size = bytes::plan_size(rule, order);
    let mut again = [0u8; LONGEST_PLAN];
    put_plan(rule, order, &mut again);
    &again[..size] == plan
}

// The rule that a plan carries, at the start of a buffer that any rule fits in, if it has a rule's length; the answer is that length.
fn extract(plan: &[u8], rule: &mut [u8]) -> Option<usize>
    requires { longest ≤ length rule.old }
    ensures { Extracted plan.now result rule.new }
{
    if plan.len() < 8 {
        return None;
    }
    let bodies = plan.get(bytes::bodies_at(plan)..)?;
    if LONGEST - 4 < bodies.len() {
        return None;
    }
    buffers::copy_at(rule, 0, &plan[..4]);
    buffers::copy_at(rule, 4, bodies);
    Some(4 + bodies.len())
}

// How many bytes the rule has that a plan carries, or none if the bytes are no plan. The rule is left at the start of the buffer.
pub fn take(plan: &[u8], rule: &mut [u8]) -> Option<usize>
    requires { longest ≤ length rule.old }
    ensures { Taking plan.now result rule.new }
{
    let n = extract(plan, rule)?;
    rules::read_rule(&rule[..n]).ok()?;
    if compiles_to(&rule[..n], plan) {
        Some(n)
    } else {
        None
    }
}

// How many columns the lines of a plan's rows have.
pub fn columns(plan: &[u8]) -> Result<usize, Refusal>
    ensures { result ≡ columns_reply (planned plan.now) }
{
    let mut rule = [0u8; LONGEST];
    take(plan, &mut rule).ok_or(Reason::NotPlan.at(0))?;
    let variables = plan[1] as usize;
    let lc = buffers::word_at(plan, 4);
    Ok(closure::place(lc, variables))
}
