// Kind 4, run: plan and values to a result buffer and a working buffer.
use crate::input::{MOST, Unserved};
use crate::{input, output};
use std::io::{Read, Write};
use tables::Budgets;

// What a buffer's words hold before the call.
const BEFORE: i32 = -1431655766;

pub fn answer<R: Read, W: Write>(from: &mut R, to: &mut W) -> Result<(), Unserved> {
    let rows = input::number(from)? as usize;
    match input::number(from)? {
        0 => run_listed(rows, from, to),
        1 => {
            let budget = input::number(from)? as usize;
            run(rows, Budgets::Common(budget), from, to)
        }
        _ => Err(Unserved::NoRequest),
    }
}

// A request that lists a budget for each row.
fn run_listed<R: Read, W: Write>(rows: usize, from: &mut R, to: &mut W) -> Result<(), Unserved> {
    let mut budgets = [0u32; MOST];
    let budgets = input::part(from, &mut budgets, input::fill_numbers)?;
    run(rows, Budgets::Each(budgets), from, to)
}

// What follows the budgets of a request. The buffers come first: a function clears them as it begins, and else would again.
fn run<R: Read, W: Write>(
    rows: usize,
    budgets: Budgets,
    from: &mut R,
    to: &mut W,
) -> Result<(), Unserved> {
    let mut plan = [0u8; MOST];
    let mut values = [0i32; MOST];
    let mut out = [BEFORE; MOST];
    let mut work = [BEFORE; MOST];
    let quota = input::number(from)? as usize;
    let out_room = input::number(from)? as usize;
    let work_room = input::number(from)? as usize;
    let plan = input::part(from, &mut plan, input::fill)?;
    let values = input::part(from, &mut values, input::fill_words)?;
    // only now, as an input that fails before this is an error
    if MOST < out_room || MOST < work_room {
        return Err(Unserved::NoRequest);
    }
    let out = &mut out[..out_room];
    let work = &mut work[..work_room];
    let reply = match budgets {
        Budgets::Common(n) => batches::run(plan, rows, values, n, quota, out, work),
        Budgets::Each(ns) => batches::run_each(plan, rows, values, ns, quota, out, work),
    };
    output::reply(to, reply)?;
    to.write_all(b" | ")?;
    output::words(to, out)?;
    to.write_all(b" | ")?;
    output::words(to, work)?;
    Ok(())
}
