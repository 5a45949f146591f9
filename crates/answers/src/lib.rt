// What the program prints: for a file and an input, the text of the batch's result or of a refusal.
#![tactic(auto)]

mod files;

ghost use Rattle.std.specs.Prelude.{◌≡◌, ◌+◌, ◌*◌, ◌≤◌, length, take, IfOk};
ghost use Rattle.io.specs.Counts.{IsPrefixLen};
ghost use Rattle.definitions.specs.Batch.{common};
ghost use Rattle.printing.specs.Text.{text_room};
ghost use Rattle.answers.specs.Answer.{number_in, words_in, no_batch, most_input, batch_in, text_of, input_answer, batch_answer, answer_to};

use definitions::{LONGEST_PLAN, ROWS, Reason, Refusal, VARIABLES};
pub use files::{open, print, write_answer};
use layouts::{MOST_LINES, MOST_RECORDS};

// The most values of a batch, and the most bytes of an input that holds one.
const MOST_VALUES: usize = ROWS * VARIABLES;

const MOST_INPUT: usize = 12 + 4 * MOST_VALUES;

// Room for the text of every answer.
const TEXT_ROOM: usize = 65536;

// The number in the four bytes at `at`.
fn number(input: &[u8], at: usize) -> usize
    requires { at + 4 ≤ length input.now }
    ensures { result ≡ number_in input.now at }
{
    u32::from_le_bytes([input[at], input[at + 1], input[at + 2], input[at + 3]]) as usize
}

// The answer to a batch.
fn put_batch(
    plan: &[u8],
    rows: usize,
    values: &[i32],
    budget: usize,
    quota: usize,
    out: &mut [u8],
) -> Result<usize, Refusal>
    requires { text_room ≤ length out.old }
    ensures prefix_len { IfOk result (λ n. IsPrefixLen n out.new) }
    ensures out_after { text_of result out.new ≡ batch_answer (record { plan = plan.entry.now; rows = rows; values = values.now; budgets = common budget; quota = quota }) }
{
    let mut records = [0i32; MOST_RECORDS];
    let mut work = [0i32; MOST_LINES];
    let most = batches::run(plan, rows, values, budget, quota, &mut records, &mut work)?;
    Ok(printing::put_answer(&records, rows, quota, most, out))
}

// Whether an input of this size holds no batch.
fn is_cut(size: usize) -> bool
    ensures { result ≡ no_batch size }
{
    size < 12 || MOST_INPUT < size || size % 4 != 0
}

// The answer of a plan to an input that holds a batch.
fn put_whole(plan: &[u8], input: &[u8], out: &mut [u8]) -> Result<usize, Refusal>
    requires in_bounds { (12 ≤ length input.now) × (length input.now ≤ most_input) }
    requires text_room_in_bounds { text_room ≤ length out.old }
    ensures prefix_len { IfOk result (λ n. IsPrefixLen n out.new) }
    ensures out_after { text_of result out.new ≡ batch_answer (batch_in plan.now input.now) }
{
    let n = (input.len() - 12) / 4;
    let mut room = [0i32; MOST_VALUES];
    let values = &mut room[..n];
    values::constants(&input[12..], values);
    let rows = number(input, 0);
    let budget = number(input, 4);
    let quota = number(input, 8);
    put_batch(plan, rows, values, budget, quota, out)
}

// The answer of a plan to any input.
fn put_input(plan: &[u8], input: &[u8], out: &mut [u8]) -> Result<usize, Refusal>
    requires { text_room ≤ length out.old }
    ensures prefix_len { IfOk result (λ n. IsPrefixLen n out.new) }
    ensures out_after { text_of result out.new ≡ input_answer plan.now input.now }
{
    if is_cut(input.len()) {
        return Err(Reason::Misfit.at(0));
    }
    put_whole(plan, input, out)
}

// The answer of a file to any input.
fn put_file(file: &[u8], input: &[u8], out: &mut [u8]) -> Result<usize, Refusal>
    requires { text_room ≤ length out.old }
    ensures prefix_len { IfOk result (λ n. IsPrefixLen n out.new) }
    ensures out_after { text_of result out.new ≡ answer_to file.now input.now }
{
    let mut plan = [0u8; LONGEST_PLAN];
    let size = plans::compile(file, &mut plan)?;
    put_input(&plan[..size], input, out)
}

// Puts the answer at the start of out, and answers its length.
pub fn answer(file: &[u8], input: &[u8], out: &mut [u8]) -> usize
    requires { text_room ≤ length out.old }
    ensures prefix_len { IsPrefixLen result out.new }
    ensures out_after { take result out.new ≡ answer_to file.now input.now }
{
    match put_file(file, input, out) {
        Ok(n) => n,
        Err(f) => printing::put_refusal(f.reason.number(), f.place, out),
    }
}
