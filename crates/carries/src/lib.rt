// One row carried on, round by round.
#![tactic(auto)]

ghost use Rattle.std.specs.Prelude.{◌≤◌, length, take};
ghost use Rattle.definitions.specs.Direct.{after};
ghost use Rattle.columns.specs.Proper.{Proper};
ghost use Rattle.plans.specs.Accepted.{rule_in};
ghost use Rattle.carries.specs.Carry.{Running, InHand, ProgressTo};

use definitions::{Finish, VARIABLES};
use rounds::Rule;

// Where a row stands: its next block, and how many labels it has.
#[derive(Drop)]
pub struct Spot {
    pub block: u8,
    pub count: usize,
}

// How far a row was carried on: how it ended, how many rounds it began on the way, its next block and how many labels it has.
#[derive(Drop)]
pub struct Progress {
    pub finish: Finish,
    pub rounds: usize,
    pub block: u8,
    pub count: usize,
}

// Up to `budget` rounds of one row, which stands in `labels` and `vars`.
pub fn carry(
    plan: &[u8],
    rule: &Rule,
    quota: usize,
    budget: usize,
    spot: Spot,
    labels: &mut [i32],
    vars: &mut [i32; VARIABLES],
) -> Progress
    requires running { Running plan.now rule.now × Proper (rule_in plan.now) }
    requires count_le_quota { (spot.count ≤ quota) × (quota ≤ length labels.old) }
    requires in_hand { InHand (rule_in plan.now) quota spot.block (take spot.count labels.old) vars.old }
    ensures { (k : InHand (rule_in plan.now) quota spot.block (take spot.count labels.old) vars.old)
        → ProgressTo (rule_in plan.now) k.state (after (rule_in plan.now) quota budget k.state) result labels.new vars.new }
{
    let mut c = Progress {
        finish: Finish::Unfinished,
        rounds: 0,
        block: spot.block,
        count: spot.count,
    };
    for n in 0..budget {
        if !c.finish.goes_on() {
            return c;
        }
        let e = rounds::round(plan, rule, quota, c.block, vars, labels, c.count);
        c = Progress {
            finish: e.finish,
            rounds: n + 1,
            block: e.block,
            count: e.count,
        };
    }
    c
}
