// The text of a batch's result and of a refusal.
#![tactic(auto)]

ghost use Rattle.std.specs.Prelude.{◌≡◌, ◌+◌, ◌*◌, ◌≤◌, ◌<◌, ◌++◌, length, take};
ghost use Rattle.definitions.specs.Finder.{most_rows, most_quota};
ghost use Rattle.io.specs.Counts.{IsPrefixLen};
ghost use Rattle.printing.specs.Text.{shown, record_at, line_text, lines_text, line_room, answer_text, refusal_text, text_room};
ghost use Rattle.printing.specs.Writing.{Appends};

use itoa::{Buffer, Integer};
use layouts::{record_at, record_size};

// What is written of a text: the first `len` bytes of a buffer. Not a `write!`, which says what it wrote only where it succeeds, and here it has to.
#[derive(Drop)]
struct Writer<'a> {
    out: &'a mut [u8],
    len: usize,
}

impl Writer<'_> {
    // All of s.
    fn put(&mut self, s: &[u8])
        requires { self.old.len + length s.now ≤ length self.old.out.now }
        ensures { Appends self.old s.now self.new }
    {
        let end = self.len + s.len();
        self.out[self.len..end].copy_from_slice(s);
        self.len = end;
    }

    // A number, with its sign.
    fn put_number<I: Integer>(&mut self, n: I)
        requires { self.old.len + I.MAX_STR_LEN ≤ length self.old.out.now }
        ensures put { Appends self.old (I.text n) self.new }
        ensures upper_bound { self.new.len ≤ self.old.len + I.MAX_STR_LEN }
    {
        self.put(Buffer::new().format(n).as_bytes());
    }

    // A row's line. There are at most 256 rows, so a row's number fits a byte.
    fn put_line(&mut self, res: &[i32], row: usize, quota: usize)
        requires row_lt_most_rows { (row < most_rows) × ((quota ≤ most_quota) × (record_at quota (row + 1) ≤ length res.now)) }
        requires line_room_in_bounds { self.old.len + line_room ≤ length self.old.out.now }
        ensures put { Appends self.old (line_text quota res.now row) self.new }
        ensures upper_bound { self.new.len ≤ self.old.len + line_room }
    {
        let from = record_at(row, quota);
        let count = res[from + 2];
        let n = record_size(labels(quota, count));
        self.put_number(row as u8);
        for x in &res[from..from + n] {
            self.put(b" ");
            self.put_number(*x);
        }
        self.put(b"\n");
    }

    // The lines of all rows.
    fn put_lines(&mut self, res: &[i32], rows: usize, quota: usize)
        requires rows_le_most_rows { (rows ≤ most_rows) × ((quota ≤ most_quota) × (record_at quota rows ≤ length res.now)) }
        requires rows_in_bounds { self.old.len + line_room * rows ≤ length self.old.out.now }
        ensures put { Appends self.old (lines_text quota res.now rows) self.new }
        ensures upper_bound { self.new.len ≤ self.old.len + line_room * rows }
    {
        for row in 0..rows {
            self.put_line(res, row, quota);
        }
    }
}

// How many labels a record with this count shows.
fn labels(quota: usize, count: i32) -> usize
    ensures { (result ≡ shown quota count) × (result ≤ quota) }
{
    if count < 0 {
        0
    } else {
        quota.min(count as usize)
    }
}

// The text of a batch's result.
pub fn put_answer(res: &[i32], rows: usize, quota: usize, most: usize, out: &mut [u8]) -> usize
    requires rows_le_most_rows { (rows ≤ most_rows) × ((quota ≤ most_quota) × (record_at quota rows ≤ length res.now)) }
    requires text_room_in_bounds { text_room ≤ length out.old }
    ensures prefix_len { IsPrefixLen result out.new }
    ensures out_after { take result out.new ≡ answer_text res.now rows quota most }
{
    let mut to = Writer { out, len: 0 };
    to.put_lines(res, rows, quota);
    to.put(b"rounds ");
    to.put_number(most);
    to.put(b"\n");
    to.len
}

// The text of a refusal. It takes any number, as its promise to callers says, not a reason.
pub fn put_refusal(number: u8, place: usize, out: &mut [u8]) -> usize
    requires { text_room ≤ length out.old }
    ensures prefix_len { IsPrefixLen result out.new }
    ensures out_after { take result out.new ≡ refusal_text number place }
{
    let mut to = Writer { out, len: 0 };
    to.put(b"refused ");
    to.put_number(number);
    to.put(b" ");
    to.put_number(place);
    to.put(b"\n");
    to.len
}
