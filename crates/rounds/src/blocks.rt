// A block of a rule, run from the rule's bytes: its statements, its ending, its columns.
ghost use Rattle.std.specs.Prelude.{◌≡◌, ◌≤◌, length, get_or};
ghost use Rattle.definitions.specs.Values.{values_in};
ghost use Rattle.definitions.specs.Plan.{bit_of};
ghost use Rattle.definitions.specs.Meaning.{at_byte};
ghost use Rattle.definitions.specs.Direct.{exit};
ghost use Rattle.columns.specs.OnPlan.{kept};
ghost use Rattle.evaluators.specs.Answer.{Sized};
ghost use Rattle.rounds.specs.Run.{EndHere, leading_of, StmtHere, StmtRun, BlockHere, BodyRun, BlockRun};

use definitions::{DEPTH, Finish, Flaw, LEVELS};
use evaluators::tokens::skip;
use evaluators::{Rule, Vars, eval_cond, eval_expr};

// ---- endings

// Where an ending leads.
#[derive(Clone, Copy, Debug, PartialEq, Eq)]
pub enum Leading {
    Goto(u8),
    Jump(u8),
    Stop,
}

// Most endings are no if: these are run in place, with no call.
#[cycle(endings)]
#[inline(always)]
pub fn run_end(s: &Rule, at: usize, v: u8, left: u8, vars: &Vars) -> Result<Leading, Flaw>
    requires { Sized v s.now × EndHere left v s.now at }
    ensures { (h : EndHere left v s.now at) → result ≡ leading_of (exit h.ending (at_byte at) (values_in vars.now)) }
{
    match s[at] {
        0x30 => Ok(Leading::Goto(s[at + 1])),
        0x31 => Ok(Leading::Jump(s[at + 1])),
        0x32 => Ok(Leading::Stop),
        // 33: nothing else can stand here
        _ => run_if(s, at, v, left, vars),
    }
}

// An ending that is an if: its condition picks one of two, each with a level less left.
#[cycle(endings)]
fn run_if(s: &Rule, at: usize, v: u8, left: u8, vars: &Vars) -> Result<Leading, Flaw>
    requires sized { Sized v s.now × EndHere left v s.now at }
    requires an_if { get_or s.now at 0 ≡ 0x33 }
    ensures { (h : EndHere left v s.now at) → result ≡ leading_of (exit h.ending (at_byte at) (values_in vars.now)) }
{
    let (h, n) = eval_cond(s, at + 1, v, DEPTH, vars)?;
    let place = if h { n } else { skip(s, n) };
    // taken apart, for speed: copied whole, the answer would wait for the byte that was just written into it
    let way = run_end(s, place, v, left - 1, vars)?;
    Ok(way)
}

// ---- statements

// The statement at `at`, which answers the place after it, or how the row has ended there. An emit works out its value first; then the quota is asked.
fn step(
    s: &Rule,
    at: usize,
    v: u8,
    quota: usize,
    vars: &mut Vars,
    labels: &mut [i32],
    count: &mut usize,
) -> Result<usize, Finish>
    requires sized { Sized v s.now × StmtHere v s.now at }
    requires count_le_quota { (count.old ≤ quota) × (quota ≤ length labels.old) }
    ensures { (h : StmtHere v s.now at) → StmtRun h.what at h.next quota count.old vars.old labels.old result count.new vars.new labels.new }
{
    let next = at + 1;
    if s[at] == 0x20 {
        let x = s[next] as usize;
        let (z, end) = eval_expr(s, at + 2, v, DEPTH, vars).map_err(Finish::Faulted)?;
        vars[x] = z;
        Ok(end)
    } else {
        // 21: nothing else can stand here
        let (z, end) = eval_expr(s, next, v, DEPTH, vars).map_err(Finish::Faulted)?;
        if quota <= *count {
            return Err(Finish::QuotaFull);
        }
        labels[*count] = z;
        *count += 1;
        Ok(end)
    }
}

// The statements of the block at `at`, one after the other: the place after them, or how the row has ended.
pub fn run_body(
    s: &Rule,
    at: usize,
    v: u8,
    quota: usize,
    vars: &mut Vars,
    labels: &mut [i32],
    count: &mut usize,
) -> Result<usize, Finish>
    requires sized { Sized v s.now × BlockHere v s.now at }
    requires count_le_quota { (count.old ≤ quota) × (quota ≤ length labels.old) }
    ensures { (h : BlockHere v s.now at) → BodyRun v s.now at h quota count.old vars.old labels.old result count.new vars.new labels.new }
{
    let mut i = at;
    // not a `for`: each statement says where the next one begins
    while s[i] == 0x20 || s[i] == 0x21 {
        i = step(s, i, v, quota, vars, labels, count)?;
    }
    Ok(i)
}

// ---- columns

// The variables below v whose bit in the mask is 0, unset.
pub fn keep(vars: &mut Vars, v: u8, mask: u16)
    requires { v ≤ 16 }
    ensures { values_in vars.new ≡ kept v (bit_of mask) (values_in vars.old) }
{
    for k in 0..v as usize {
        if (mask >> k) % 2 == 0 {
            vars[k] = 0;
        }
    }
}

// ---- a block

// What a plan tells of a block: its place in the rule, and the masks of its input and output columns.
#[derive(Clone, Copy, Debug, PartialEq, Eq)]
pub struct Entry {
    pub place: usize,
    pub inputs: u16,
    pub outputs: u16,
}

// The block of an entry: entered with its input columns alone, run, and left with its output columns alone. It answers where its ending leads.
pub fn run_block(
    s: &Rule,
    e: Entry,
    v: u8,
    quota: usize,
    vars: &mut Vars,
    labels: &mut [i32],
    count: &mut usize,
) -> Result<Leading, Finish>
    requires sized { Sized v s.now × BlockHere v s.now e.place }
    requires count_le_quota { (count.old ≤ quota) × (quota ≤ length labels.old) }
    ensures { (h : BlockHere v s.now e.place) → BlockRun v s.now e h quota count.old vars.old labels.old result count.new vars.new labels.new }
{
    keep(vars, v, e.inputs);
    let place = run_body(s, e.place, v, quota, vars, labels, count)?;
    let way = run_end(s, place, v, LEVELS, vars).map_err(Finish::Faulted)?;
    keep(vars, v, e.outputs);
    Ok(way)
}
