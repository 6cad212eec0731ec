// Lines alike: how many lines in a row have the width and the bases of a given one. Such a line need not be searched for its
// end: it has an LF where its end should be, and none before. Example: after a line of 61 bytes, the LF of a line like it is 60 bytes on,
// and two overlapping blocks of 32 bytes cover the 60 bytes before it.
ghost use Rattle.std.specs.Prelude.{◌≡◌, ◌+◌, ◌≤◌, ◌<◌, length, take, drop};
ghost use Rattle.lines.specs.Lines.{lines, seq_at};
ghost use Rattle.lines.specs.Alike.{first_like, alike};
ghost use Rattle.lines.specs.UpTo.{up_to_at};
ghost use Rattle.lines.specs.Clear.{has_lf};

use crate::Line;
use crate::blocks::lf_in_either;

// Is there an LF among the `n` bytes from `at` on, which are fewer than 16: by blocks of 1 to 8. std's `contains` would be a call for each line: so a
// file whose lines have one base took 2.6 times as long to check as byte by byte.
fn lf_among_few(s: &[u8], at: usize, n: usize) -> bool
    requires { (n < 16) × (at + n ≤ length s.now) }
    ensures { result ≡ has_lf (take n (drop at s.now)) }
{
    if n == 0 {
        return false;
    }
    if n <= 2 {
        return lf_in_either::<1>(s, at, at + (n - 1));
    }
    if n <= 4 {
        return lf_in_either::<2>(s, at, at + (n - 2));
    }
    if n <= 8 {
        return lf_in_either::<4>(s, at, at + (n - 4));
    }
    lf_in_either::<8>(s, at, at + (n - 8))
}

// Is there an LF among the `n` bytes from `at` on, which are at least 128: by blocks of 128, the last of which ends where they end.
fn lf_among_many(s: &[u8], at: usize, n: usize) -> bool
    requires { (128 ≤ n) × (at + n ≤ length s.now) }
    ensures { result ≡ has_lf (take n (drop at s.now)) }
{
    let before = (n - 1) / 128;
    for k in 0..before {
        let p = at + 128 * k;
        if lf_in_either::<64>(s, p, p + 64) {
            return true;
        }
    }
    let q = at + (n - 128);
    lf_in_either::<64>(s, q, q + 64)
}

// Is there an LF among the `n` bytes from `at` on. Two overlapping blocks cover every byte.
fn lf_within(s: &[u8], at: usize, n: usize) -> bool
    requires { at + n ≤ length s.now }
    ensures { result ≡ has_lf (take n (drop at s.now)) }
{
    if n < 16 {
        return lf_among_few(s, at, n);
    }
    if n <= 32 {
        return lf_in_either::<16>(s, at, at + (n - 16));
    }
    if n <= 64 {
        return lf_in_either::<32>(s, at, at + (n - 32));
    }
    if n <= 128 {
        return lf_in_either::<64>(s, at, at + (n - 64));
    }
    lf_among_many(s, at, n)
}

// Does the line at `at`, whatever it begins with, end in LF, with the width and the bases of `like`. It looks where the end should be.
fn is_like(s: &[u8], at: usize, like: Line) -> bool
    requires { (at ≤ length s.now) × (0 < like.width) }
    ensures { result ≡ first_like like (lines (drop at s.now)) }
{
    if s.len() - at < like.width {
        return false;
    }
    let last = at + (like.width - 1);
    if lf_within(s, at, like.width - 1) {
        return false;
    }
    if s[last] != b'\n' {
        return false;
    }
    crate::chopped(&s[at..last], b'\r') == like.bases
}

// How many lines from `at` on end in LF with the width and the bases of `like`, up to the first that does not, or that begins with `mark`, and
// at most `most`: one by one. The mark is looked at last: the blocks of `is_like` load the byte too, and the compiler would not load them whole.
fn lines_one_by_one(s: &[u8], at: usize, like: Line, mark: u8, most: usize) -> usize
    ensures { result ≡ alike like (take most (up_to_at s.now mark at)) }
{
    if s.len() < at {
        return 0;
    }
    if like.width == 0 {
        return 0;
    }
    let mut i = at;
    for n in 0..most {
        if !is_like(s, i, like) {
            return n;
        }
        if s[i] == mark {
            return n;
        }
        i += like.width;
    }
    most
}

// The same by many at once, as far as they are alike; the others one by one.
fn lines_at_once(s: &[u8], at: usize, like: Line, mark: u8, most: usize) -> usize
    ensures { result ≡ alike like (take most (up_to_at s.now mark at)) }
{
    if s.len() < at {
        return 0;
    }
    let n = crate::abreast::lines_abreast(s, at, like, mark, most);
    n + lines_one_by_one(s, at + n * like.width, like, mark, most - n)
}

// May many lines of a width from `at` on be alike, of a file that comes from the memory: do 256 of them fit, and does the last one end in LF. From a
// processor's cache one place is as fast as four, so that files below 4 MiB are left out. Where few lines are alike, this look is all that they pay for
// the many; so it stands in both functions below, and not in a third, which would be one call more.
fn may_be_many(s: &[u8], at: usize, width: usize) -> bool {
    if s.len() < 4194304 {
        return false;
    }
    if width < 33 {
        return false;
    }
    if 129 < width {
        return false;
    }
    if s.len() < at {
        return false;
    }
    let last = 256 * width - 1;
    if s.len() - at <= last {
        return false;
    }
    s[at + last] == b'\n'
}

// How many lines from `at` on end in LF with the width and the bases of `like`, up to the first that does not, or that begins with `mark`, and
// at most `most`.
pub fn lines_like_up_to(s: &[u8], at: usize, like: Line, mark: u8, most: usize) -> usize
    ensures { result ≡ alike like (take most (up_to_at s.now mark at)) }
{
    if may_be_many(s, at, like.width) {
        return lines_at_once(s, at, like, mark, most);
    }
    lines_one_by_one(s, at, like, mark, most)
}

// How many sequence lines from `at` on end in LF with the width and the bases of `like`, up to the first that does not.
pub fn lines_like(s: &[u8], at: usize, like: Line) -> usize
    ensures { result ≡ alike like (seq_at s.now at) }
{
    if may_be_many(s, at, like.width) {
        return lines_at_once(s, at, like, b'>', s.len());
    }
    lines_one_by_one(s, at, like, b'>', s.len())
}
