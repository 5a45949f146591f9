// The finder: where a row stands in the caller's two buffers.
#![tactic(auto, unfolding(crate::specs::Limits::within, crate::specs::Place::place_in, crate::specs::Place::line_place, definitions::specs::Finder::found_in, definitions::specs::Finder::line_part))]

ghost use Rattle.std.specs.Prelude.{◌≡◌, ◌≤◌, ◌<◌, MatchOption};
ghost use Rattle.definitions.specs.Batch.{line_size};
ghost use Rattle.definitions.specs.Finder.{is_number, is_line, line_index, found_in, most_rows, most_columns};
ghost use Rattle.finder.specs.Limits.{within};
ghost use Rattle.finder.specs.Place.{place_in};

use definitions::{Place, QUOTA, ROWS, VARIABLES};
use layouts::{line_size, record_at, record_size};

// Whether a word is the number n.
fn is_number(x: i32, n: usize) -> bool
    requires { n < most_rows }
    ensures { result ≡ is_number x n }
{
    x == n as i32
}

// Whether line i is whole and has this row's number.
fn is_line(work: &[i32], size: usize, i: usize, row: usize) -> bool
    requires { (i < most_rows) × ((2 ≤ size) × ((size ≤ line_size most_columns) × (row < most_rows))) }
    ensures { result ≡ is_line work.now size row i }
{
    let at = i * size;
    work.get(at..at + size)
        .is_some_and(|line| is_number(line[0], row))
}

// The first whole line with this row's number.
fn line_index(work: &[i32], rows: usize, size: usize, row: usize) -> Option<usize>
    requires { (rows ≤ most_rows) × ((2 ≤ size) × ((size ≤ line_size most_columns) × (row < most_rows))) }
    ensures { MatchOption result (line_index work.now size row 0 rows ≡ rows) (λ i. (i ≡ line_index work.now size row 0 rows) × (i < rows)) }
{
    (0..rows).find(|i| is_line(work, size, *i, row))
}

// Whether the numbers keep to their limits and all records fit into so many words.
fn allowed(rows: usize, quota: usize, columns: usize, row: usize, words: usize) -> bool
    ensures { result ≡ within rows quota columns row words }
{
    row < rows
        && rows <= ROWS
        && quota <= QUOTA
        && columns <= VARIABLES
        && record_at(rows, quota) <= words
}

// Where a row's record lies, or its line while its status is 0.
pub fn place_in(
    res: &[i32],
    work: &[i32],
    rows: usize,
    quota: usize,
    columns: usize,
    row: usize,
) -> Option<Place>
    ensures { result ≡ place_in res.now work.now rows quota columns row }
{
    if !allowed(rows, quota, columns, row, res.len()) {
        return None;
    }
    let at = record_at(row, quota);
    if is_number(res[at], 0) {
        let size = line_size(columns);
        let i = line_index(work, rows, size, row)?;
        Some(Place::InWork(i * size))
    } else {
        Some(Place::InResult(at))
    }
}

// A row's record, or its line while its status is 0, or an empty part: the caller's own words.
pub fn find<'a>(
    res: &'a [i32],
    work: &'a [i32],
    rows: usize,
    quota: usize,
    columns: usize,
    row: usize,
) -> &'a [i32]
    ensures { (result.ref_ptr, result.now) ≡ found_in res.entry work.entry rows quota columns row }
{
    match place_in(res, work, rows, quota, columns, row) {
        Some(Place::InResult(at)) => &res[at..at + record_size(quota)],
        Some(Place::InWork(at)) => &work[at..at + line_size(columns)],
        // within the limits it is a line that is missing
        None if allowed(rows, quota, columns, row, res.len()) => &work[..0],
        None => &res[..0],
    }
}
