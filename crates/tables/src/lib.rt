// The LOOP table: every unfinished row carried on by rounds, its line moved up in place.
#![tactic(auto)]

ghost use Rattle.std.specs.Prelude.{◌≤◌, length, ◌≡◌};
ghost use Rattle.definitions.specs.Batch.{budget_of};
ghost use Rattle.plans.specs.Accepted.{rule_in};
ghost use Rattle.carries.specs.Carry.{Running};
ghost use Rattle.layouts.specs.Layout.{Known};
ghost use Rattle.layouts.specs.Rows.{RowAt};
ghost use Rattle.tables.specs.Table.{budgets_in, RowMayBegin, Turned, Table, RowsMayBegin, AfterPass};
ghost use Rattle.tables.specs.Runs.{Runs, rule_of, budget_in, step_of, Allowed, ToStart, Started, RowsRun};

use carries::{Spot, carry};
use definitions::Finish;
use layouts::{Layout, Line, Row, fetch, put_line, put_record, read_row, record_at};
use rounds::Rule;

// ---- budgets

// How many rounds the rows may begin: one number for all, or one for each.
#[derive(Clone, Copy)]
pub enum Budgets<'a> {
    Common(usize),
    Each(&'a [u32]),
}

impl Budgets<'_> {
    // How many a row may begin.
    fn of(self, row: usize) -> usize
        ensures { result ≡ budget_of (budgets_in self.entry) row }
    {
        match self {
            Budgets::Common(n) => n,
            Budgets::Each(ns) => ns.get(row).map_or(0, |n| *n as usize),
        }
    }
}

// ---- what a run goes by

// An accepted plan, its rule's bytes, the layout of its rows, and their budgets.
#[derive(Drop)]
struct Run<'a> {
    plan: &'a [u8],
    rule: &'a Rule,
    layout: Layout,
    budgets: Budgets<'a>,
}

// Where a row's line is read, and where it is written if the row goes on.
#[derive(Drop)]
pub struct Move {
    pub from: usize,
    pub to: usize,
}

// How far a row has come.
#[derive(Drop)]
pub struct Stage {
    pub finish: Finish,
    pub begun: usize,
}

// How many rows go on, and the most rounds that any row began.
#[derive(Drop)]
pub struct Standing {
    pub live: usize,
    pub most: usize,
}

impl Run<'_> {
    // As many rounds as its budget says of the row whose line is moved: its record is written anew, and its line if it goes on.
    fn turn(&self, m: Move, out: &mut [i32], work: &mut [i32]) -> Stage
        requires running { Runs self.now × (m.to ≤ m.from) }
        requires row_may_begin { RowMayBegin (budget_in self.now) (rule_of self.now) self.now.layout.quota m.from out.old work.old }
        ensures { (k : RowAt (rule_of self.now) self.now.layout.quota m.from out.old work.old)
            → Turned (rule_of self.now) self.now.layout.quota k.row m.to (step_of self.now k.row k.state) out.old work.old result out.new work.new }
    {
        let l = self.layout;
        let Row {
            row,
            block,
            begun,
            count,
            mut labels,
            mut vars,
        } = read_row(out, work, m.from, l);
        let budget = self.budgets.of(row);
        let spot = Spot { block, count };
        let c = carry(
            self.plan,
            self.rule,
            l.quota,
            budget,
            spot,
            &mut labels,
            &mut vars,
        );
        let begun = begun + c.rounds;
        let at = record_at(row, l.quota);
        let finish = c.finish;
        put_record(out, at, l.quota, finish.told(), begun, &labels[..c.count]);
        if finish.goes_on() {
            let line = Line {
                row,
                block: c.block,
                begun,
            };
            put_line(work, m.to, line, l, &vars);
        }
        Stage { finish, begun }
    }

    // As many rounds of every unfinished row as its budget says, from wherever the rows stand. The lines of those that go on move up.
    fn pass(&self, before: Standing, out: &mut [i32], work: &mut [i32]) -> Standing
        requires running { Runs self.now }
        requires rows_may_begin { RowsMayBegin (budget_in self.now) (rule_of self.now) self.now.layout.quota before.live out.old work.old }
        ensures { (t : Table (rule_of self.now) self.now.layout.quota before.live out.old work.old)
            → AfterPass (rule_of self.now) self.now.layout.quota before out.old work.old t (step_of self.now) result out.new work.new }
    {
        let size = self.layout.size;
        let mut live = 0;
        let mut most = before.most;
        for i in 0..before.live {
            let m = Move {
                from: i * size,
                to: live * size,
            };
            let s = self.turn(m, out, work);
            most = most.max(s.begun);
            if s.finish.goes_on() {
                live += 1;
            }
        }
        Standing { live, most }
    }
}

// ---- all rows

// Every row's line at its start.
#[tactic(auto, using(crate::proofs::Starts::of_starts))]
fn put_starts(l: Layout, values: &[i32], rows: usize, work: &mut [i32])
    requires { ToStart l rows values.now work.old }
    ensures { (p : ToStart l rows values.now work.old) → Started p.rule values.now rows work.old work.new }
{
    for row in 0..rows {
        let vars = fetch(values, row * l.arguments, l.arguments);
        let line = Line {
            row,
            block: 0,
            begun: 0,
        };
        put_line(work, row * l.size, line, l, &vars);
    }
}

// All rows from their start on; the rest of the table is cleared. The most rounds that any row began.
pub fn run_rows<'a>(
    plan: &'a [u8],
    rule: &'a Rule,
    l: Layout,
    rows: usize,
    budgets: Budgets<'a>,
    values: &[i32],
    out: &mut [i32],
    work: &mut [i32],
) -> usize
    requires running { Running plan.now rule.now × Known (rule_in plan.now) l }
    requires allowed { Allowed l rows (budgets_in budgets) (length values.now) (length out.old) (length work.old) }
    ensures { RowsRun (rule_in plan.now) values.now rows (budgets_in budgets.entry) l.quota out.old work.old result out.new work.new }
{
    buffers::clear_at(out, 0, record_at(rows, l.quota));
    put_starts(l, values, rows, work);
    let run = Run {
        plan,
        rule,
        layout: l,
        budgets,
    };
    let first = Standing {
        live: rows,
        most: 0,
    };
    let s = run.pass(first, out, work);
    let live = s.live;
    buffers::clear_at(work, live * l.size, (rows - live) * l.size);
    s.most
}
