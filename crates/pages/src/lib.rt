// A rule's bytes to a file of pages, and back.
#![tactic(auto)]

ghost use Rattle.std.specs.Prelude.{◌≡◌, ◌+◌, ◌*◌, ◌<◌, ◌≤◌, ◌++◌, length, drop};
ghost use Rattle.definitions.specs.Pages.{most_pages, page_size, payload_room, check_place, length_in, check_of, page_of, pages_for, piece_of, file_of, page_in, payload_of, filler_ok, length_ok, size_ok, page_at, payload_to, unpacked};
ghost use Rattle.definitions.specs.Grammar.{longest};
ghost use Rattle.pages.specs.Answers.{scan_of, Fits};
ghost use Rattle.definitions.specs.Calls.{bytes_in};

use definitions::{Reason, Refusal};

const PAGE_SIZE: usize = 512;

const LONGEST_FILE: usize = 8 * PAGE_SIZE;

const PAYLOAD_ROOM: usize = 508;

const CHECK_PLACE: usize = 510;

const SUMMED_WORDS: usize = 255;

// The length of its payload that a page tells.
fn length_in(p: &[u8]) -> u16
    requires { check_place ≤ length p.now }
    ensures { result ≡ length_in p.now }
{
    buffers::word_at(p, 0)
}

// The check of a page: its words but the last, and its number. That the sum wraps is meant.
pub fn check(p: &[u8], number: u16) -> u16
    requires { check_place ≤ length p.now }
    ensures { result ≡ check_of number p.now }
{
    let mut sum: u16 = 0;
    for i in 0..SUMMED_WORDS {
        sum = sum.wrapping_add(buffers::word_at(p, 2 * i));
    }
    sum.wrapping_add(number)
}

// The page of this number that holds all of src: the bytes between payload and check stay zero.
pub fn page_of(src: &[u8], number: u16) -> [u8; PAGE_SIZE]
    requires { length src.now ≤ payload_room }
    ensures { result ≡ page_of number src.now }
{
    let mut p = [0u8; PAGE_SIZE];
    buffers::put16_at(&mut p, 0, src.len() as u16);
    buffers::copy_at(&mut p, 2, src);
    let c = check(&p, number);
    buffers::put16_at(&mut p, CHECK_PLACE, c);
    p
}

// The bytes of a rule that page k holds.
fn piece(rule: &[u8], k: usize) -> &[u8]
    requires { (k < most_pages) × (k * payload_room ≤ length rule.now) }
    ensures { result.now ≡ piece_of rule.now k }
{
    let a = k * PAYLOAD_ROOM;
    &rule[a..rule.len().min(a + PAYLOAD_ROOM)]
}

// How many pages n bytes take.
fn pages_for(n: usize) -> usize
    requires { n ≤ longest }
    ensures { result ≡ pages_for n }
{
    (n + (PAYLOAD_ROOM - 1)) / PAYLOAD_ROOM
}

// How long the file of n bytes is.
pub fn file_size(n: usize) -> usize
    requires { n ≤ longest }
    ensures { result ≡ pages_for n * page_size }
{
    pages_for(n) * PAGE_SIZE
}

// The rule's file into out, from its start.
pub fn put_file(rule: &[u8], out: &mut [u8])
    requires { (length rule.now ≤ longest) × (pages_for (length rule.now) * page_size ≤ length out.old) }
    ensures { out.new ≡ file_of rule.now ++ drop (pages_for (length rule.now) * page_size) out.old }
{
    for k in 0..pages_for(rule.len()) {
        let p = page_of(piece(rule, k), k as u16);
        buffers::copy_at(out, k * PAGE_SIZE, &p);
    }
}

// Page k of a file.
fn page_in(file: &[u8], k: usize) -> &[u8]
    requires { (k < most_pages) × (k * page_size + page_size ≤ length file.now) }
    ensures { (result.now ≡ page_in file.now k) × (length result.now ≡ page_size) }
{
    let a = k * PAGE_SIZE;
    &file[a..a + PAGE_SIZE]
}

// The bytes that a page holds.
fn payload(p: &[u8]) -> &[u8]
    requires { (length p.now ≡ page_size) × (length_in p.now ≤ payload_room) }
    ensures { result.now ≡ payload_of p.now }
{
    &p[2..length_in(p) as usize + 2]
}

// Whether the bytes between payload and check are all zero.
fn filler_ok(p: &[u8]) -> bool
    requires { length p.now ≡ page_size }
    ensures { result ≡ filler_ok p.now }
{
    let from = length_in(p) as usize + 2;
    p[..CHECK_PLACE].iter().skip(from).all(|b| *b == 0)
}

// Whether a page, the last or not, may hold n bytes.
fn length_ok(last: bool, n: usize) -> bool
    ensures { result ≡ length_ok last n }
{
    if last {
        (1..=PAYLOAD_ROOM).contains(&n)
    } else {
        n == PAYLOAD_ROOM
    }
}

// Page k, the last or not: how many bytes it holds. Its check comes first, since nothing else in it counts if that is wrong.
fn scan_page(p: &[u8], k: u16, last: bool) -> Result<usize, Refusal>
    requires { length p.now ≡ page_size }
    ensures { result ≡ scan_of (page_at last p.now k) }
{
    let place = k as usize;
    if buffers::word_at(p, CHECK_PLACE) != check(p, k) {
        return Err(Reason::PageCheck.at(place));
    }
    let n = length_in(p) as usize;
    if !length_ok(last, n) || !filler_ok(p) {
        return Err(Reason::PageForm.at(place));
    }
    Ok(n)
}

// All pages of a file of so many: how many bytes they hold, or the first refusal.
fn scan_pages(file: &[u8], pages: usize) -> Result<usize, Refusal>
    requires { (pages ≤ most_pages) × (pages * page_size ≤ length file.now) }
    ensures { result ≡ scan_of (payload_to file.now pages pages) }
{
    let mut total = 0;
    for k in 0..pages {
        let n = scan_page(page_in(file, k), k as u16, k + 1 == pages)?;
        total += n;
    }
    Ok(total)
}

// Whether n bytes can be a file: 1 to 8 whole pages.
fn size_ok(n: usize) -> bool
    ensures { result ≡ size_ok n }
{
    n != 0 && n <= LONGEST_FILE && n % PAGE_SIZE == 0
}

// How many bytes a file holds, or why it is refused: for any bytes.
pub fn scan(file: &[u8]) -> Result<usize, Refusal>
    ensures { result ≡ scan_of (unpacked file.now) }
{
    let n = file.len();
    if size_ok(n) {
        scan_pages(file, n / PAGE_SIZE)
    } else {
        Err(Reason::FileSize.at(0))
    }
}

// What a file that `scan` accepts holds, into out from its start.
pub fn unpack(file: &[u8], out: &mut [u8])
    requires { Fits (unpacked file.now) (length out.old) }
    ensures { out.new ≡ bytes_in (unpacked file.now) ++ drop (length (bytes_in (unpacked file.now))) out.old }
{
    let mut at: usize = 0;
    for k in 0..file.len() / PAGE_SIZE {
        let part = payload(page_in(file, k));
        buffers::copy_at(out, at, part);
        at += part.len();
    }
}
