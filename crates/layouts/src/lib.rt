// How a batch lies in its two buffers: the one reader and the one writer of a record and of a line.
#![tactic(auto)]

ghost use Rattle.std.specs.Prelude.{◌≡◌, true, ◌∷◌, ◌++◌, ◌+◌, ◌-◌, ◌*◌, ◌≤◌, ◌<◌, pos, nat_abs, length, get_or, take, drop, replicate};
ghost use Rattle.std.specs.Int.Signed.{non_neg};
ghost use Rattle.buffers.specs.Words.{over};
ghost use Rattle.definitions.specs.Values.{values_in, words_of};
ghost use Rattle.definitions.specs.Batch.{record_size, told_words, line_size, line_words, count_to, columns_of};
ghost use Rattle.definitions.specs.Finder.{most_rows, most_quota, most_columns};
ghost use Rattle.definitions.specs.Calls.{most_budget};
ghost use Rattle.definitions.specs.Plan.{bit_of};
ghost use Rattle.columns.specs.OnPlan.{spread};
ghost use Rattle.layouts.specs.Layout.{in_array};
ghost use Rattle.layouts.specs.Rows.{SomeRowAt, RowRead};

use definitions::{QUOTA, ROWS, Told, VARIABLES};

// What a rule's lines and a call's records depend on: the variables, the arguments, the LC columns among the variables, a line's size, and the quota.
#[derive(Clone, Copy)]
pub struct Layout {
    pub variables: usize,
    pub arguments: usize,
    pub lc: u16,
    pub size: usize,
    pub quota: usize,
}

// ---- sizes

// A record's numbers before its labels, and a line's before its columns.
const RECORD_HEAD: usize = 4;

const LINE_HEAD: usize = 3;

// The words of a record under a quota.
pub fn record_size(quota: usize) -> usize
    requires { quota ≤ most_quota }
    ensures { result ≡ record_size quota }
{
    RECORD_HEAD + quota
}

// Where a row's record begins, and so how many words the records of so many rows take.
pub fn record_at(row: usize, quota: usize) -> usize
    requires { (row ≤ most_rows) × (quota ≤ most_quota) }
    ensures { result ≡ row * record_size quota }
{
    row * record_size(quota)
}

// The words of a line with so many columns.
pub fn line_size(columns: usize) -> usize
    requires { columns ≤ most_columns }
    ensures { result ≡ line_size columns }
{
    LINE_HEAD + columns
}

// Room for the records of every batch, and for its lines.
pub const MOST_RECORDS: usize = ROWS * (RECORD_HEAD + QUOTA);

pub const MOST_LINES: usize = ROWS * (LINE_HEAD + VARIABLES);

// ---- a record

// A row's record into out, from index at on: its four numbers, then its labels, then zeros up to the quota.
pub fn put_record(
    out: &mut [i32],
    at: usize,
    quota: usize,
    told: Told,
    begun: usize,
    labels: &[i32],
)
    requires { (begun ≤ most_budget) × ((length labels.now ≤ quota) × ((quota ≤ most_quota) × (at + record_size quota ≤ length out.old))) }
    ensures { out.new ≡ over out.old at (told_words quota told begun (length labels.now) labels.now) }
{
    let status = told.status;
    let count = labels.len();
    out[at] = status as i32;
    out[at + 1] = begun as i32;
    out[at + 2] = count as i32;
    out[at + 3] = told.place as i32;
    let first = at + RECORD_HEAD;
    buffers::copy_at(out, first, labels);
    buffers::clear_at(out, first + count, quota - count);
}

// ---- a line

// The columns among the first v variables, in rising order: into work from index at on. As one walk with `columns_at`, by `zip`, it was tried: more was left to prove than the two loops leave.
fn put_columns(work: &mut [i32], at: usize, l: Layout, vars: &[i32; VARIABLES])
    requires { (l.variables ≤ most_columns) × (at + count_to l.variables (bit_of l.lc) ≤ length work.old) }
    ensures { work.new ≡ over work.old at (words_of (columns_of l.variables (bit_of l.lc) (values_in vars.now))) }
{
    for k in 0..l.variables {
        if closure::has(l.lc, k) {
            work[at + closure::place(l.lc, k)] = vars[k];
        }
    }
}

// A line's numbers before its columns: which row it is, where its next round begins, the rounds begun.
#[derive(Clone, Copy)]
pub struct Line {
    pub row: usize,
    pub block: u8,
    pub begun: usize,
}

// A line's numbers and its columns: into work from index at on.
pub fn put_line(work: &mut [i32], at: usize, line: Line, l: Layout, vars: &[i32; VARIABLES])
    requires { (line.row < most_rows) × ((line.begun ≤ most_budget) × ((l.variables ≤ most_columns) × (at + line_size (count_to l.variables (bit_of l.lc)) ≤ length work.old))) }
    ensures { work.new ≡ over work.old at (line_words line.row line.block line.begun (columns_of l.variables (bit_of l.lc) (values_in vars.now))) }
{
    work[at] = line.row as i32;
    work[at + 1] = line.block as i32;
    work[at + 2] = line.begun as i32;
    put_columns(work, at + LINE_HEAD, l, vars);
}

// ---- reading

// A word that is a number from 0 up.
fn number(s: &[i32], at: usize) -> usize
    requires { (at < length s.now) × (non_neg (get_or s.now at (pos 0)) ≡ true) }
    ensures { result ≡ nat_abs (get_or s.now at (pos 0)) }
{
    s[at] as usize
}

// The n words of src from index at on, then zeros: a row's arguments or its labels, of which the limit is the same.
pub fn fetch(src: &[i32], at: usize, n: usize) -> [i32; VARIABLES]
    requires { (n ≤ most_columns) × (at + n ≤ length src.now) }
    ensures { result ≡ in_array (take n (drop at src.now)) }
{
    let mut a = [0i32; VARIABLES];
    a[..n].copy_from_slice(&src[at..at + n]);
    a
}

// The columns that stand in work from index at on, each as its variable; all others are unset.
fn columns_at(work: &[i32], at: usize, l: Layout) -> [i32; VARIABLES]
    requires { (l.variables ≤ most_columns) × (at + count_to l.variables (bit_of l.lc) ≤ length work.now) }
    ensures { values_in result ≡ spread l.variables (bit_of l.lc) (values_in (drop at work.now)) }
{
    let mut vars = [0i32; VARIABLES];
    for k in 0..l.variables {
        if closure::has(l.lc, k) {
            vars[k] = work[at + closure::place(l.lc, k)];
        }
    }
    vars
}

// An unfinished row, as its line and its record have it. The labels are an array with their count, since there is no heap.
#[derive(Drop)]
pub struct Row {
    pub row: usize,
    pub block: u8,
    pub begun: usize,
    pub count: usize,
    pub labels: [i32; QUOTA],
    pub vars: [i32; VARIABLES],
}

// The row whose line stands at `from`.
pub fn read_row(out: &[i32], work: &[i32], from: usize, l: Layout) -> Row
    requires { SomeRowAt l from out.now work.now }
    ensures { (p : SomeRowAt l from out.now work.now) → RowRead l from out.now work.now p result }
{
    let row = number(work, from);
    let block = number(work, from + 1) as u8;
    let vars = columns_at(work, from + LINE_HEAD, l);
    let at = record_at(row, l.quota);
    let begun = number(out, at + 1);
    let count = number(out, at + 2);
    let labels = fetch(out, at + RECORD_HEAD, count);
    Row {
        row,
        block,
        begun,
        count,
        labels,
        vars,
    }
}
