// The public run of a batch: the plan, the tests, then the rows.
#![tactic(auto)]

ghost use Rattle.std.specs.Prelude.{◌≡◌, ◌≤◌, length};
ghost use Rattle.definitions.specs.Grammar.{most_variables};
ghost use Rattle.definitions.specs.Batch.{common, each, line_size};
ghost use Rattle.definitions.specs.Finder.{most_columns};
ghost use Rattle.definitions.specs.Calls.{Ran, brought};
ghost use Rattle.plans.specs.Accepted.{rule_in, Accepted};
ghost use Rattle.carries.specs.Carry.{Running};
ghost use Rattle.tables.specs.Table.{budgets_in};
ghost use Rattle.batches.specs.Tests.{LaidOut, batch_in, misfits, over_place, tested};

use definitions::{BUDGET, LONGEST, QUOTA, ROWS, Reason, Refusal};
use layouts::{Layout, line_size, record_at};
use rounds::Rule;
use tables::Budgets;

// What a plan tells of its rows' layout.
#[tactic(auto, using(crate::proofs::Accepted::of_head))]
fn layout_of(plan: &[u8], quota: usize) -> Layout
    requires { Accepted plan.now }
    ensures { LaidOut (rule_in plan.now) quota result }
{
    let variables = plan[1] as usize;
    let lc = buffers::word_at(plan, 4);
    Layout {
        variables,
        arguments: plan[2] as usize,
        lc,
        size: line_size(closure::place(lc, variables)),
        quota,
    }
}

// The lowest row whose budget is over the limit; one budget for all is row 0's.
fn first_over(budgets: Budgets) -> Option<usize>
    ensures { result ≡ over_place (brought (budgets_in budgets.entry)) }
{
    match budgets {
        Budgets::Common(n) => (BUDGET < n).then_some(0),
        Budgets::Each(ns) => ns.iter().position(|n| BUDGET < *n as usize),
    }
}

// What a call is given besides its buffers.
#[derive(Drop)]
struct Batch<'a> {
    plan: &'a [u8],
    rows: usize,
    values: &'a [i32],
    budgets: Budgets<'a>,
    quota: usize,
}

impl Batch<'_> {
    // Whether the rows are too many, or the values or the budgets not as many as the rows want.
    fn misfits(&self, l: Layout) -> bool
        requires { l.arguments ≤ most_variables }
        ensures { result ≡ misfits (batch_in self.now) l }
    {
        ROWS < self.rows
            || self.values.len() != self.rows * l.arguments
            || matches!(self.budgets, Budgets::Each(ns) if ns.len() != self.rows)
    }

    // The refusal that the numbers of a call are due, with so many words of room.
    #[tactic(auto, unfolding(crate::specs::Tests::tested))]
    fn test(&self, l: Layout, out: usize, work: usize) -> Result<(), Refusal>
        requires { (l.arguments ≤ most_variables) × (l.size ≤ line_size most_columns) }
        ensures { result ≡ tested (batch_in self.now) l out work }
    {
        if self.misfits(l) {
            return Err(Reason::Misfit.at(0));
        }
        if QUOTA < self.quota {
            return Err(Reason::OverLimit.at(0));
        }
        if let Some(row) = first_over(self.budgets) {
            return Err(Reason::OverLimit.at(row));
        }
        if out < record_at(self.rows, self.quota) {
            return Err(Reason::NoRoom.at(0));
        }
        if work < self.rows * l.size {
            return Err(Reason::NoRoom.at(1));
        }
        Ok(())
    }

    // The batch under its plan's rule.
    #[tactic(auto, using(crate::proofs::Replies::of_run))]
    fn run_by(&self, rule: &Rule, out: &mut [i32], work: &mut [i32]) -> Result<usize, Refusal>
        requires { Running self.now.plan.now rule.now }
        ensures { Ran (batch_in self.now) out.old work.old result out.new work.new }
    {
        let l = layout_of(self.plan, self.quota);
        self.test(l, out.len(), work.len())?;
        Ok(tables::run_rows(
            self.plan,
            rule,
            l,
            self.rows,
            self.budgets,
            self.values,
            out,
            work,
        ))
    }

    // The batch, once its plan is taken.
    fn run(&self, out: &mut [i32], work: &mut [i32]) -> Result<usize, Refusal>
        ensures { Ran (batch_in self.now) out.old work.old result out.new work.new }
    {
        let mut rule = [0u8; LONGEST];
        plans::take(self.plan, &mut rule).ok_or(Reason::NotPlan.at(0))?;
        self.run_by(&rule, out, work)
    }
}

// Runs a batch: the rows' records into out, the LOOP table into work. Answers the most rounds that any row began.
pub fn run<'a>(
    plan: &'a [u8],
    rows: usize,
    values: &'a [i32],
    budget: usize,
    quota: usize,
    out: &mut [i32],
    work: &mut [i32],
) -> Result<usize, Refusal>
    ensures { Ran
        (record { plan = plan.entry.now; rows = rows; values = values.now; budgets = common budget; quota = quota })
        out.old
        work.old
        result
        out.new
        work.new }
{
    let budgets = Budgets::Common(budget);
    let batch = Batch {
        plan,
        rows,
        values,
        budgets,
        quota,
    };
    batch.run(out, work)
}

// Runs a batch in which each row has a budget of its own. Beside `run`, as callers and C have two names.
pub fn run_each<'a>(
    plan: &'a [u8],
    rows: usize,
    values: &'a [i32],
    budgets: &'a [u32],
    quota: usize,
    out: &mut [i32],
    work: &mut [i32],
) -> Result<usize, Refusal>
    ensures { Ran
        (record { plan = plan.entry.now; rows = rows; values = values.now; budgets = each budgets.now; quota = quota })
        out.old
        work.old
        result
        out.new
        work.new }
{
    let budgets = Budgets::Each(budgets);
    let batch = Batch {
        plan,
        rows,
        values,
        budgets,
        quota,
    };
    batch.run(out, work)
}
