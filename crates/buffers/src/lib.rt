// Writes into a caller's buffer, and the reading of a little-endian number.
#![tactic(auto)]

ghost use Rattle.std.specs.Prelude.{◌≡◌, ◌+◌, ◌<◌, ◌≤◌, pos, length, replicate};
ghost use Rattle.definitions.specs.Plan.{le16};
ghost use Rattle.definitions.specs.Pages.{word_at};
ghost use Rattle.buffers.specs.Words.{over};

// All of src into dst, from index at on. Element by element, since `copy_from_slice` would need `memmove` of who links the library.
pub fn copy_at<T: Copy>(dst: &mut [T], at: usize, src: &[T])
    requires { at + length src.now ≤ length dst.old }
    ensures { dst.new ≡ over dst.old at src.now }
{
    for i in 0..src.len() {
        dst[at + i] = src[i];
    }
}

// Zeros into dst, n of them from index at on.
pub fn clear_at(dst: &mut [i32], at: usize, n: usize)
    requires { at + n ≤ length dst.old }
    ensures { dst.new ≡ over dst.old at (replicate n (pos 0)) }
{
    dst[at..at + n].fill(0);
}

// The two bytes of n into dst at index at, the lower first.
pub fn put16_at(dst: &mut [u8], at: usize, n: u16)
    requires { at + 2 ≤ length dst.old }
    ensures { dst.new ≡ over dst.old at (le16 n) }
{
    copy_at(dst, at, &n.to_le_bytes());
}

// The little-endian number at byte i.
pub fn word_at(p: &[u8], i: usize) -> u16
    requires { i + 1 < length p.now }
    ensures { result ≡ word_at p.now i }
{
    u16::from_le_bytes([p[i], p[i + 1]])
}
