// The program's answers at its edges. tools/edge_cases.py makes the files in data/ and the expected answers, from the calls below,
// which is why they stand one a line.
#![tactic(auto)]

use std::io;

// The answer to one file of data/ by the rule in another.
fn case(rt: &HostRuntime, pages: &str, batch: &str) -> io::Result<()> {
    match answers::open(rt, batch) {
        Some(mut file) => answers::print(rt, pages, &mut file),
        None => answers::print(rt, pages, &mut io::empty()),
    }
}

// Files that hold no rule: refused with 1 to 3.
fn files(rt: &HostRuntime) -> io::Result<()> {
    case(rt, "absent.pages", "three.batch")?;
    case(rt, "empty.pages", "three.batch")?;
    case(rt, "one_byte_short.pages", "three.batch")?;
    case(rt, "nine.pages", "three.batch")?;
    case(rt, "check.pages", "three.batch")?;
    case(rt, "filler.pages", "three.batch")?;
    Ok(())
}

// Rules that are refused, with 4 to 10 or 16, whatever the input is.
fn rules(rt: &HostRuntime) -> io::Result<()> {
    case(rt, "header.pages", "three.batch")?;
    case(rt, "tag.pages", "three.batch")?;
    case(rt, "variable.pages", "three.batch")?;
    case(rt, "target.pages", "three.batch")?;
    case(rt, "deep.pages", "three.batch")?;
    case(rt, "early.pages", "eleven.batch")?;
    case(rt, "after.pages", "absent.batch")?;
    case(rt, "cycle.pages", "three.batch")?;
    Ok(())
}

// Inputs that hold no batch, and the shortest and the longest that do.
fn inputs(rt: &HostRuntime) -> io::Result<()> {
    case(rt, "sum.pages", "absent.batch")?;
    case(rt, "sum.pages", "eleven.batch")?;
    case(rt, "sum.pages", "no_rows.batch")?;
    case(rt, "sum.pages", "thirteen.batch")?;
    case(rt, "stops.pages", "longest.batch")?;
    case(rt, "stops.pages", "too_long.batch")?;
    Ok(())
}

// Batches at their limits.
fn batches(rt: &HostRuntime) -> io::Result<()> {
    case(rt, "sum.pages", "three.batch")?;
    case(rt, "sum.pages", "one_value_short.batch")?;
    case(rt, "sum.pages", "too_many_rows.batch")?;
    case(rt, "sum.pages", "too_high_quota.batch")?;
    case(rt, "sum.pages", "too_high_budget.batch")?;
    case(rt, "sum.pages", "both_too_high.batch")?;
    case(rt, "sum.pages", "no_budget.batch")?;
    case(rt, "sum.pages", "no_quota.batch")?;
    case(rt, "divides.pages", "faults.batch")?;
    case(rt, "goes_back.pages", "three.batch")?;
    Ok(())
}

// Rules that fault: where, in an expression, a condition, a statement and a block.
fn faults(rt: &HostRuntime) -> io::Result<()> {
    case(rt, "inner_operand.pages", "inner_operand.batch")?;
    case(rt, "taken_arm.pages", "taken_arm.batch")?;
    case(rt, "condition_of_if.pages", "condition_of_if.batch")?;
    case(rt, "second_statement.pages", "second_statement.batch")?;
    case(rt, "block_of_four.pages", "block_of_four.batch")?;
    Ok(())
}

fn main(rt: HostRuntime) -> io::Result<()> {
    files(&rt)?;
    rules(&rt)?;
    inputs(&rt)?;
    batches(&rt)?;
    faults(&rt)
}
