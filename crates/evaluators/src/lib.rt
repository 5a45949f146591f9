// Expressions and conditions, worked out from a rule's bytes. Each is called only where the grammar accepts what stands there.
#![tactic(auto)]

pub mod tokens;

ghost use Rattle.std.specs.Prelude.{◌≡◌, ℕ, ◌+◌, ◌≤◌, ◌<◌, pos, length, get_or};
ghost use Rattle.definitions.specs.Values.{negation};
ghost use Rattle.definitions.specs.Rule.{Join};
ghost use Rattle.definitions.specs.Grammar.{two, constant_in, expr_at, cond_at, longest, most_variables};
ghost use Rattle.definitions.specs.Meaning.{applied, at_byte, handed_up};
ghost use Rattle.evaluators.specs.Answer.{Sized, Readable, placed, value_at, answer, holding, pairs, answers, picked, case_from};

use definitions::{Flaw, Joint, Kind, LONGEST, Operator, VARIABLES};
use tokens::skip;

// The bytes of a rule, with any bytes after them.
pub type Rule = [u8; LONGEST];

// A row's variables.
pub type Vars = [i32; VARIABLES];

// What is worked out answers its value, or values, and the place after it; or the fault in it.

// ---- the leaves

fn eval_const(s: &Rule, at: usize) -> (i32, usize)
    requires { (length s.now ≡ longest) × (at + 4 ≤ length s.now) }
    ensures { result ≡ (constant_in s.now at, at + 4) }
{
    (values::constant(s, at), at + 4)
}

fn eval_var(s: &Rule, at: usize, vars: &Vars) -> (i32, usize)
    requires { (at < longest) × (get_or s.now at 0 < most_variables) }
    ensures { result ≡ (get_or vars.now (get_or s.now at 0) (pos 0), at + 1) }
{
    (vars[s[at] as usize], at + 1)
}

// What the operator at `at` gave, with the place after all of it: its fault is handed up, with the place of its tag.
fn at_place(o: Result<i32, Kind>, at: u16, n: usize) -> Result<(i32, usize), Flaw>
    ensures { result ≡ placed o at n }
{
    match o {
        Ok(x) => Ok((x, n)),
        Err(kind) => Err(Flaw { kind, place: at }),
    }
}

fn negate_at(x: i32, at: u16, n: usize) -> Result<(i32, usize), Flaw>
    ensures { result ≡ value_at (handed_up (at_byte at) (negation x)) n }
{
    at_place(values::negate(x), at, n)
}

fn operate_at(op: Operator, x: i32, y: i32, at: u16, n: usize) -> Result<(i32, usize), Flaw>
    ensures { result ≡ value_at (handed_up (at_byte at) (applied op x y)) n }
{
    at_place(values::operate(op, x, y), at, n)
}

// ---- the evaluators: a cycle on the levels left, as document 01 asks

#[cycle(evaluators)]
pub fn eval_expr(s: &Rule, at: usize, v: u8, left: u8, vars: &Vars) -> Result<(i32, usize), Flaw>
    requires { Sized v s.now × Readable (expr_at left v s.now at) }
    ensures { result ≡ answer (expr_at left v s.now at) at vars.now }
{
    let tag = s[at];
    let next = at + 1;
    let less = left - 1;
    let place = at as u16;
    match tag {
        0x01 => Ok(eval_const(s, next)),
        0x02 => Ok(eval_var(s, next, vars)),
        0x03 => {
            let (x, n) = eval_expr(s, next, v, less, vars)?;
            negate_at(x, place, n)
        }
        0x09 => eval_case(s, next, v, less, vars),
        // 04 to 08: nothing else can stand here
        _ => {
            let (x, y, n) = eval_two(s, next, v, less, vars)?;
            operate_at(values::operator(tag), x, y, place, n)
        }
    }
}

// As `eval_expr`. Most operands are a constant or a variable, and these are worked out in place, with no call: kept beside it for speed (docs/BENCHMARK.md).
#[cycle(evaluators)]
fn eval_operand(s: &Rule, at: usize, v: u8, left: u8, vars: &Vars) -> Result<(i32, usize), Flaw>
    requires { Sized v s.now × Readable (expr_at left v s.now at) }
    ensures { result ≡ answer (expr_at left v s.now at) at vars.now }
{
    let tag = s[at];
    let next = at + 1;
    match tag {
        0x01 => Ok(eval_const(s, next)),
        0x02 => Ok(eval_var(s, next, vars)),
        _ => eval_expr(s, at, v, left, vars),
    }
}

// The values of two expressions, one after the other.
#[cycle(evaluators)]
#[inline(always)]
fn eval_two(s: &Rule, at: usize, v: u8, left: u8, vars: &Vars) -> Result<(i32, i32, usize), Flaw>
    requires { Sized v s.now × Readable (pairs (expr_at left v s.now) at) }
    ensures { result ≡ answers (pairs (expr_at left v s.now) at) at vars.now }
{
    let (x, n) = eval_operand(s, at, v, left, vars)?;
    let (y, m) = eval_operand(s, n, v, left, vars)?;
    Ok((x, y, m))
}

// What follows a case's tag at `at` - 1, a condition and two expressions: the value of the first if it holds, else that of the second.
#[cycle(evaluators)]
fn eval_case(s: &Rule, at: usize, v: u8, left: u8, vars: &Vars) -> Result<(i32, usize), Flaw>
    requires { Sized v s.now × Readable (case_from (expr_at left v s.now) (cond_at left v s.now) at) }
    ensures { (place : ℕ) → at ≡ place + 1 → result ≡ answer (case_from (expr_at left v s.now) (cond_at left v s.now) at) place vars.now }
{
    let (h, n) = eval_cond(s, at, v, left, vars)?;
    eval_arm(s, n, v, left, vars, h)
}

// One of two expressions that stand one after the other; the other is passed over.
#[cycle(evaluators)]
fn eval_arm(
    s: &Rule,
    at: usize,
    v: u8,
    left: u8,
    vars: &Vars,
    first: bool,
) -> Result<(i32, usize), Flaw>
    requires { Sized v s.now × Readable (pairs (expr_at left v s.now) at) }
    ensures { result ≡ picked first (pairs (expr_at left v s.now) at) at vars.now }
{
    if first {
        let (x, n) = eval_expr(s, at, v, left, vars)?;
        Ok((x, skip(s, n)))
    } else {
        eval_expr(s, skip(s, at), v, left, vars)
    }
}

#[cycle(evaluators)]
pub fn eval_cond(s: &Rule, at: usize, v: u8, left: u8, vars: &Vars) -> Result<(bool, usize), Flaw>
    requires { Sized v s.now × Readable (cond_at left v s.now at) }
    ensures { result ≡ holding (cond_at left v s.now at) at vars.now }
{
    let tag = s[at];
    let next = at + 1;
    let less = left - 1;
    match tag {
        0x10 | 0x11 => {
            let (x, y, end) = eval_two(s, next, v, less, vars)?;
            Ok((values::compare(values::relation(tag), x, y), end))
        }
        0x12 => {
            let (h, n) = eval_cond(s, next, v, less, vars)?;
            Ok((!h, n))
        }
        // 13 and 14: nothing else can stand here
        _ => eval_join(s, next, v, less, vars, values::joint(tag)),
    }
}

// What follows the tag at `at` - 1, two conditions: the right one is looked at only if the left one does not decide.
#[cycle(evaluators)]
fn eval_join(
    s: &Rule,
    at: usize,
    v: u8,
    left: u8,
    vars: &Vars,
    j: Joint,
) -> Result<(bool, usize), Flaw>
    requires { Sized v s.now × Readable (two (Join j) (cond_at left v s.now) at) }
    ensures { (place : ℕ) → at ≡ place + 1 → result ≡ holding (two (Join j) (cond_at left v s.now) at) place vars.now }
{
    let (h, n) = eval_cond(s, at, v, left, vars)?;
    if values::decides(j, h) {
        Ok((h, skip(s, n)))
    } else {
        eval_cond(s, n, v, left, vars)
    }
}
