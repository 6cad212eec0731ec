// Where a line ends: the search for the next LF, by blocks of 64 bytes. Each fast function has the meaning of `line_end_near`, which looks
// at one byte after another. Example: of 64 bytes whose first LF is byte 60, `left_at_lf` is 4, and the line ends 65 - 4 = 61 bytes on.
ghost use Rattle.std.specs.Prelude.{◌≡◌, cond, ◌||◌, ◌+◌, ◌*◌, ◌≤◌, ◌<◌, max, length, take, drop, eqb};
ghost use Rattle.lines.specs.Lines.{line_end};
ghost use Rattle.lines.specs.Clear.{has_lf};
ghost use Rattle.lines.specs.FirstLf.{left_at_lf};

use crate::blocks::lf_in_four;

// `left` where a byte is an LF, else 0.
fn left_if_lf(b: u8, left: u8) -> u8
    ensures { result ≡ cond (eqb b 10) left 0 }
{
    if b == b'\n' { left } else { 0 }
}

// Of the 64 bytes from `i` on, how many are left at the first LF, with it; 0 where none is one. The loop never stops early, so the
// compiler looks at all bytes at once; the first LF is the one with most bytes left.
fn left_at_lf(s: &[u8], i: usize) -> usize
    requires { i + 64 ≤ length s.now }
    ensures { result ≡ left_at_lf 64 (drop i s.now) }
{
    let mut left: u8 = 0;
    for k in 0..64 {
        left = left_if_lf(s[i + k], (64 - k) as u8).max(left);
    }
    left as usize
}

// Is there an LF among the 64 bytes from `i` on.
fn lf_in_64(s: &[u8], i: usize) -> bool
    requires { i + 64 ≤ length s.now }
    ensures { result ≡ has_lf (take 64 (drop i s.now)) }
{
    let mut any = false;
    for k in 0..64 {
        any |= s[i + k] == b'\n';
    }
    any
}

// The offset just past the line that begins at `at`, byte by byte.
fn line_end_near(s: &[u8], at: usize) -> usize
    ensures { result ≡ line_end s.now at }
{
    for i in at..s.len() {
        if s[i] == b'\n' {
            return i + 1;
        }
    }
    at.max(s.len())
}

// Is there an LF in a stretch, the 256 * `rows` bytes from `at` on. It is looked at in four places, a quarter of it apart, in turns: a processor
// fetches several parts of a file from the memory at a time. Example: of 16,384 bytes, 64 from each of byte 0, 4,096, 8,192 and 12,288 on, then
// 64 from each of byte 64, 4,160, 8,256 and 12,352 on.
fn lf_in_stretch(s: &[u8], at: usize, rows: usize) -> bool
    requires { (rows ≤ 64) × (at + 256 * rows ≤ length s.now) }
    ensures { result ≡ has_lf (take (256 * rows) (drop at s.now)) }
{
    let apart = 64 * rows;
    for n in 0..rows {
        let first = at + 64 * n;
        let second = first + apart;
        let third = second + apart;
        if lf_in_four::<64>(s, first, second, third, third + apart) {
            return true;
        }
    }
    false
}

// The offset from `at` on behind stretches of 256 * `rows` bytes that have no LF: the next one has an LF, or is not whole. A `while` here and in the two
// searches below: the place is needed behind the loop, and a `for` would first have to divide for the number of blocks.
fn past_stretches(s: &[u8], at: usize, rows: usize) -> usize
    requires { (0 < rows) × (rows ≤ 64) × (at ≤ length s.now) }
    ensures { (result ≤ length s.now) × (line_end s.now result ≡ line_end s.now at) }
{
    let bytes = 256 * rows;
    let mut i = at;
    while bytes <= s.len() - i {
        if lf_in_stretch(s, i, rows) {
            return i;
        }
        i += bytes;
    }
    i
}

// The offset just past the line that begins at `at`, for what `line_end_far` leaves: lines that are very long, and the last bytes of a file. By
// stretches of 16,384 bytes, then of 256, then by blocks of 64. Example: a line of 10,000,001 bytes ends a file, and its first 4,160 bytes are passed.
// 610 stretches have no LF, up to byte 9,998,400, then 6 of 256 bytes, up to byte 9,999,936, and a block; the last byte is looked at by itself.
fn line_end_rest(s: &[u8], at: usize) -> usize
    ensures { result ≡ line_end s.now at }
{
    if s.len() < at {
        return at;
    }
    let far = past_stretches(s, at, 64);
    let mut i = past_stretches(s, far, 1);
    while 64 <= s.len() - i {
        let left = left_at_lf(s, i);
        if left != 0 {
            return i + (65 - left);
        }
        i += 64;
    }
    line_end_near(s, i)
}

// The last offset where one of the first blocks from `at` on may begin: 4,096 bytes on, or that of the file's last block.
fn stop_at(last: usize, at: usize) -> usize
    requires { at ≤ last }
    ensures { result ≤ last }
{
    if last - at < 4096 { last } else { at + 4096 }
}

// The offset just past the line that begins at `at`; `at` itself at or past the end. By blocks of 64 bytes, of which most have no LF: for lines
// that are long, as a read's bases. Where to stop is told first, so that a block has one comparison of its place. The slice is handed on as a part of
// itself: handed on as it came it is copied as one, which the compiler takes for a store, and a short record that is checked costs 5 instructions more.
pub fn line_end_far(s: &[u8], at: usize) -> usize
    ensures { result ≡ line_end s.now at }
{
    if s.len() < 64 {
        return line_end_rest(&s[0..], at);
    }
    let last = s.len() - 64;
    if last < at {
        return line_end_rest(&s[0..], at);
    }
    let stop = stop_at(last, at);
    let mut i = at;
    while i <= stop {
        if lf_in_64(s, i) {
            return i + (65 - left_at_lf(s, i));
        }
        i += 64;
    }
    line_end_rest(&s[0..], i)
}

// The offset just past the line that begins at `at`; `at` itself at or past the end. Most lines end in the first 64 bytes.
pub fn line_end(s: &[u8], at: usize) -> usize
    ensures { result ≡ line_end s.now at }
{
    if s.len() < 64 {
        return line_end_near(s, at);
    }
    if s.len() - 64 < at {
        return line_end_near(s, at);
    }
    let left = left_at_lf(s, at);
    if left == 0 {
        return line_end_far(s, at + 64);
    }
    at + (65 - left)
}
