// The calls, exported for C and Rust. A slice passes as a pointer and a length; what an answer's 64 bits hold is said in specs/.
#![tactic(auto)]

ghost use Rattle.std.specs.Prelude.{◌≡◌, ◌<◌};
ghost use Rattle.definitions.specs.Plan.{planned};
ghost use Rattle.definitions.specs.Batch.{common, each};
ghost use Rattle.definitions.specs.Calls.{Wrote, Ran, to_read, to_write, to_compile, columns_reply};
ghost use Rattle.finder.specs.Place.{place_in};
ghost use Rattle.tap.specs.Packed.{half, packed, Clear, Stands};
ghost use Rattle.tap.specs.Place.{first_word, place_word};

use definitions::{Place, Refusal};

// The value of the lowest of the upper 32 bits.
const HALF: u64 = 4294967296;

// A reply in 64 bits.
fn pack(r: Result<usize, Refusal>) -> u64
    requires { Clear r }
    ensures { result ≡ packed r }
{
    match r {
        Ok(n) => n as u64,
        Err(f) => {
            let number = f.reason.number() as u64;
            let place = f.place as u64;
            number * HALF + place
        }
    }
}

#[unsafe(no_mangle)]
pub extern "C" fn tap_read(file: &[u8], out: &mut [u8]) -> u64
    ensures { Stands (λ r. Wrote (to_read file.now) out.old r out.new) result }
{
    let r = rules::read(file, out);
    pack(r)
}

#[unsafe(no_mangle)]
pub extern "C" fn tap_write(rule: &[u8], out: &mut [u8]) -> u64
    ensures { Stands (λ r. Wrote (to_write rule.now) out.old r out.new) result }
{
    let r = rules::write(rule, out);
    pack(r)
}

#[unsafe(no_mangle)]
pub extern "C" fn tap_compile(file: &[u8], out: &mut [u8]) -> u64
    ensures { Stands (λ r. Wrote (to_compile file.now) out.old r out.new) result }
{
    let r = plans::compile(file, out);
    pack(r)
}

#[unsafe(no_mangle)]
pub extern "C" fn tap_columns(plan: &[u8]) -> u64
    ensures { Stands (λ r. r ≡ columns_reply (planned plan.now)) result }
{
    let r = plans::columns(plan);
    pack(r)
}

#[unsafe(no_mangle)]
pub extern "C" fn tap_run(
    plan: &[u8],
    rows: u32,
    values: &[i32],
    budget: u32,
    quota: u32,
    out: &mut [i32],
    work: &mut [i32],
) -> u64
    ensures { Stands
        (λ r. Ran
        (record { plan = plan.entry.now; rows = rows; values = values.now; budgets = common budget; quota = quota })
        out.old
        work.old
        r
        out.new
        work.new)
        result }
{
    let r = batches::run(
        plan,
        rows as usize,
        values,
        budget as usize,
        quota as usize,
        out,
        work,
    );
    pack(r)
}

#[unsafe(no_mangle)]
pub extern "C" fn tap_run_each(
    plan: &[u8],
    rows: u32,
    values: &[i32],
    budgets: &[u32],
    quota: u32,
    out: &mut [i32],
    work: &mut [i32],
) -> u64
    ensures { Stands
        (λ r. Ran
        (record { plan = plan.entry.now; rows = rows; values = values.now; budgets = each budgets.now; quota = quota })
        out.old
        work.old
        r
        out.new
        work.new)
        result }
{
    let r = batches::run_each(
        plan,
        rows as usize,
        values,
        budgets,
        quota as usize,
        out,
        work,
    );
    pack(r)
}

// A place in 64 bits.
#[tactic(auto, unfolding(crate::specs::Place::first_word, crate::specs::Place::place_word))]
fn pack_place(p: Option<Place>) -> u64
    requires { first_word p < half }
    ensures { result ≡ place_word p }
{
    match p {
        Some(Place::InResult(at)) => HALF + at as u64,
        Some(Place::InWork(at)) => 2 * HALF + at as u64,
        None => 0,
    }
}

#[unsafe(no_mangle)]
pub extern "C" fn tap_find(
    res: &[i32],
    work: &[i32],
    rows: u32,
    quota: u32,
    columns: u32,
    row: u32,
) -> u64
    ensures { result ≡ place_word (place_in res.now work.now rows quota columns row) }
{
    let p = finder::place_in(
        res,
        work,
        rows as usize,
        quota as usize,
        columns as usize,
        row as usize,
    );
    pack_place(p)
}
