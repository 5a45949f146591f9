// One round of a row, from a block on along gotos, on the columns of its plan.
#![tactic(auto)]

mod blocks;

ghost use Rattle.std.specs.Prelude.{◌≡◌, ◌≤◌, ◌<◌, length};
ghost use Rattle.definitions.specs.Rule.{size};
ghost use Rattle.definitions.specs.Plan.{carried};
ghost use Rattle.plans.specs.Accepted.{rule_in, Accepted};
ghost use Rattle.rounds.specs.Round.{Lies, Entered, jump_to, Walked};

use blocks::{Entry, Leading, run_block};
use definitions::Finish;
pub use evaluators::Rule;
use evaluators::Vars;

// What the plan tells of block b.
fn entry_of(plan: &[u8], b: u8) -> Entry
    requires { Accepted plan.now × (b < size (rule_in plan.now)) }
    ensures { Entered plan.now b result }
{
    let at = 6 + 8 * (b as usize);
    let offset = buffers::word_at(plan, at) as usize;
    let place = offset - plans::bodies_at(plan) + 4;
    let inputs = buffers::word_at(plan, at + 2);
    let outputs = buffers::word_at(plan, at + 4);
    Entry {
        place,
        inputs,
        outputs,
    }
}

// What a round comes to: a row that goes on jumps to `block`. With the count of labels.
#[derive(Clone, Copy, Debug, PartialEq, Eq)]
pub struct RoundEnd {
    pub finish: Finish,
    pub block: u8,
    pub count: usize,
}

fn jump_to(block: u8, count: usize) -> RoundEnd
    ensures { result ≡ jump_to block count }
{
    RoundEnd {
        finish: Finish::Unfinished,
        block,
        count,
    }
}

// One round of a row, from a block on along gotos, by the plan's entries. It enters at most as many blocks as there are.
pub fn round(
    plan: &[u8],
    rule: &Rule,
    quota: usize,
    block: u8,
    vars: &mut Vars,
    labels: &mut [i32],
    count: usize,
) -> RoundEnd
    requires accepted { Accepted plan.now × (Lies (carried plan.now) rule.now × (block < size (rule_in plan.now))) }
    requires count_le_quota { (count ≤ quota) × (quota ≤ length labels.old) }
    ensures { Walked plan.now quota block count vars.old labels.old result vars.new labels.new }
{
    let v = plan[1];
    let mut b = block;
    let mut n = count;
    for _ in 0..plan[3] {
        let e = entry_of(plan, b);
        let finish = match run_block(rule, e, v, quota, vars, labels, &mut n) {
            Ok(Leading::Goto(t)) => {
                b = t;
                continue;
            }
            Ok(Leading::Jump(t)) => return jump_to(t, n),
            Ok(Leading::Stop) => Finish::Stopped,
            Err(how) => how,
        };
        return RoundEnd {
            finish,
            block: b,
            count: n,
        };
    }
    jump_to(b, n)
}
