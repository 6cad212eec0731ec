// Lines alike, looked at in four places at once. A processor fetches several parts of a file from the memory at a time, if they are far enough
// apart. Example: of 1,024 lines of 61 bytes, line 0, line 256, line 512 and line 768 are looked at together, then line 1, line 257 and so on, each
// 15,616 bytes from the next. Where one of them is not alike, the lines are looked at one by one.
ghost use Rattle.std.specs.Prelude.{◌≡◌, true, false, ◌||◌, ◌+◌, ◌*◌, ◌≤◌, ◌<◌, length, take, drop};
ghost use Rattle.lines.specs.Alike.{alike};
ghost use Rattle.lines.specs.UpTo.{up_to_at};
ghost use Rattle.lines.specs.Clear.{has_lf};
ghost use Rattle.lines.specs.Abreast.{InFour, NoLf, EndsLike, UnmarkedLike, AllLike};

use crate::Line;
use crate::blocks::lf_in_four;

// Is there an LF among the `n` bytes, 32 to 64, of four places: two overlapping blocks cover every byte of a place.
fn lf_in_short_row(s: &[u8], at: usize, apart: usize, n: usize) -> bool
    requires { (32 ≤ n) × (n ≤ 64) × (at + apart + apart + apart + n ≤ length s.now) }
    ensures { result ≡ false → InFour (NoLf s.now n) at apart }
{
    let back = n - 32;
    let second = at + apart;
    if lf_in_four::<32>(s, at, at + back, second, second + back) {
        return true;
    }
    let third = second + apart;
    let fourth = third + apart;
    lf_in_four::<32>(s, third, third + back, fourth, fourth + back)
}

// Is there an LF among the `n` bytes, 64 to 128, from `at` on: four blocks, of which two overlap.
fn lf_in_long(s: &[u8], at: usize, n: usize) -> bool
    requires { (64 ≤ n) × (n ≤ 128) × (at + n ≤ length s.now) }
    ensures { result ≡ has_lf (take n (drop at s.now)) }
{
    let back = at + (n - 64);
    lf_in_four::<32>(s, at, at + 32, back, back + 32)
}

// The same of four places.
fn lf_in_long_row(s: &[u8], at: usize, apart: usize, n: usize) -> bool
    requires { (64 ≤ n) × (n ≤ 128) × (at + apart + apart + apart + n ≤ length s.now) }
    ensures { result ≡ false → InFour (NoLf s.now n) at apart }
{
    if lf_in_long(s, at, n) {
        return true;
    }
    let second = at + apart;
    if lf_in_long(s, second, n) {
        return true;
    }
    let third = second + apart;
    if lf_in_long(s, third, n) {
        return true;
    }
    lf_in_long(s, third + apart, n)
}

// Is there an LF among the `n` bytes, 32 to 128, of four places.
fn lf_in_row(s: &[u8], at: usize, apart: usize, n: usize) -> bool
    requires { (32 ≤ n) × (n ≤ 128) × (at + apart + apart + apart + n ≤ length s.now) }
    ensures { result ≡ false → InFour (NoLf s.now n) at apart }
{
    if n <= 64 {
        return lf_in_short_row(s, at, apart, n);
    }
    lf_in_long_row(s, at, apart, n)
}

// The functions below hand on `like` and `mark`, with the width's bounds in their clauses. Tried: a struct of the two with the bounds as its invariant
// takes 27 instructions a line of 60 bases where these take 23, and 10 % more time.
//
// Does a line at `at` end as one like `like` does, if no LF is before that; and does it not begin with `mark`.
fn ends_like(s: &[u8], at: usize, like: Line, mark: u8) -> bool
    requires { (0 < like.width) × (at + like.width ≤ length s.now) }
    ensures { result ≡ true → EndsLike s.now like mark at }
{
    let last = at + (like.width - 1);
    if s[last] != b'\n' {
        return false;
    }
    if crate::chopped(&s[at..last], b'\r') != like.bases {
        return false;
    }
    s[at] != mark
}

// Are the lines at four places like `like`, and does none begin with `mark`. The blocks come first: the compiler would not load them whole
// behind the single bytes.
fn row_is_like(s: &[u8], at: usize, apart: usize, like: Line, mark: u8) -> bool
    requires { (33 ≤ like.width) × (like.width ≤ 129) × (at + apart + apart + apart + like.width ≤ length s.now) }
    ensures { result ≡ true → InFour (UnmarkedLike s.now like mark) at apart }
{
    if lf_in_row(s, at, apart, like.width - 1) {
        return false;
    }
    if !ends_like(s, at, like, mark) {
        return false;
    }
    let second = at + apart;
    if !ends_like(s, second, like, mark) {
        return false;
    }
    let third = second + apart;
    if !ends_like(s, third, like, mark) {
        return false;
    }
    ends_like(s, third + apart, like, mark)
}

// Are `rows` lines like `like`, and does none begin with `mark`, from each of four places on, which are as many lines apart.
fn rows_are_like(s: &[u8], at: usize, rows: usize, apart: usize, like: Line, mark: u8) -> bool
    requires { (33 ≤ like.width) × (like.width ≤ 129) × (apart ≡ rows * like.width) × (at + 4 * apart ≤ length s.now) }
    ensures { result ≡ true → AllLike s.now like mark (4 * rows) at }
{
    let mut i = at;
    for n in 0..rows {
        if !row_is_like(s, i, apart, like, mark) {
            return false;
        }
        i += like.width;
    }
    true
}

// How many lines from `at` on are like `like` and do not begin with `mark`, as far as four times `rows` lines at once tell, and at most
// `most`. The last byte of so many lines is looked at first: where the lines end before it, it is seldom an LF. A `while`: place and count move on
// together by what is passed, and the count is the answer.
fn lines_by_rows(
    s: &[u8],
    at: usize,
    like: Line,
    mark: u8,
    most: usize,
    rows: usize,
    apart: usize,
) -> usize
    requires { (33 ≤ like.width) × (like.width ≤ 129) × (0 < rows) × (rows ≤ 256) × (apart ≡ rows * like.width) × (0 < apart) × (apart ≤ 33024) × (at ≤ length s.now) }
    ensures { (result ≤ most) × AllLike s.now like mark result at }
{
    let lines = 4 * rows;
    let bytes = 4 * apart;
    let mut i = at;
    let mut n = 0;
    while lines <= most - n {
        if s.len() - i < bytes {
            return n;
        }
        if s[i + (bytes - 1)] != b'\n' {
            return n;
        }
        if !rows_are_like(s, i, rows, apart, like, mark) {
            return n;
        }
        i += bytes;
        n += lines;
    }
    n
}

// How many lines from `at` on are like `like` and do not begin with `mark`, as far as many at once tell, and at most `most`: by 1,024 lines, then by
// 256. Only lines of 33 to 129 bytes are looked at so.
pub(crate) fn lines_abreast(s: &[u8], at: usize, like: Line, mark: u8, most: usize) -> usize
    ensures { (result ≤ most) × (alike like (take result (up_to_at s.now mark at)) ≡ result) }
{
    if s.len() < at {
        return 0;
    }
    if like.width < 33 {
        return 0;
    }
    if 129 < like.width {
        return 0;
    }
    let n = lines_by_rows(s, at, like, mark, most, 256, 256 * like.width);
    n + lines_by_rows(
        s,
        at + n * like.width,
        like,
        mark,
        most - n,
        64,
        64 * like.width,
    )
}
