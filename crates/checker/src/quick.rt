// The fast way over a record that its index line describes: it is told without refusals, so that its numbers stay at hand. The index line says where the name ends and
// where the sequence begins; both are looked for just there. What is not told so is checked by `check_record`.
ghost use Rattle.std.specs.Prelude.{◌≡◌, true, false, ◌+◌, ◌≤◌, ◌<◌, length, IfSome};
ghost use Rattle.checker.specs.Quick.{WordAt, NoLf, DefinedSo, PassedAt};

use columns::fields;

// The places behind a record and its index line.
#[derive(Clone, Copy)]
pub(crate) struct Passed {
    pub fasta: usize,
    pub index: usize,
}

// Are the 8 bytes of `a` from place `i` on those of `b`, and above a space, which no whitespace is. The loop never stops early, so the compiler
// looks at all of them at once.
// It is not `comparing::same_8`, since it tells in the same loop that no byte is a space.
fn word_8(a: &[u8], b: &[u8], i: usize) -> bool
    requires { (i + 8 ≤ length a.now) × (i + 8 ≤ length b.now) }
    ensures { result ≡ true → WordAt a.now i b.now i 8 }
{
    let mut all = true;
    for k in 0..8 {
        all = all & (a[i + k] == b[i + k]) & (32 < a[i + k]);
    }
    all
}

// The same of all bytes, one by one.
fn word_few(a: &[u8], b: &[u8]) -> bool
    requires { length a.now ≡ length b.now }
    ensures { result ≡ true → WordAt a.now 0 b.now 0 (length a.now) }
{
    for (k, &byte) in a.iter().enumerate() {
        if byte != b[k] {
            return false;
        }
        if byte <= 32 {
            return false;
        }
    }
    true
}

// The same, 8 bytes at once: of 12 bytes the blocks begin at places 0 and 4.
fn same_word(a: &[u8], b: &[u8]) -> bool
    requires { length a.now ≡ length b.now }
    ensures { result ≡ true → WordAt a.now 0 b.now 0 (length a.now) }
{
    if a.len() < 8 {
        return word_few(a, b);
    }
    let last = a.len() - 8;
    for i in (0..last).step_by(8) {
        if !word_8(a, b, i) {
            return false;
        }
    }
    word_8(a, b, last)
}

// Is one of the 16 bytes from `i` on an LF. The loop never stops early.
// Its kin in `lines` are private: as public functions they would have to be total, with a test in the hot loop.
fn lf_in_16(s: &[u8], i: usize) -> bool
    requires { i + 16 ≤ length s.now }
    ensures { result ≡ false → NoLf s.now i (i + 16) }
{
    let mut any = false;
    for k in 0..16 {
        any = any | (s[i + k] == b'\n');
    }
    any
}

// Is none of the bytes from `from` up to `to` an LF, 16 bytes at once. The last block ends at `to`, and may begin as early as `at`: of bytes 14 to 22 of
// a line it looks at 6 to 22.
fn clear_to(s: &[u8], at: usize, from: usize, to: usize) -> bool
    requires { (at ≤ from) × (from ≤ to) × (to ≤ length s.now) }
    ensures { result ≡ true → NoLf s.now from to }
{
    if to - at < 16 {
        return !s[from..to].contains(&b'\n');
    }
    let last = to - 16;
    for i in (from..last).step_by(16) {
        if lf_in_16(s, i) {
            return false;
        }
    }
    !lf_in_16(s, last)
}

// Is the line at `at` a definition line that ends at `start`, and is its name the `n` bytes of the index from `line` on. Its end is not searched for: it has an LF where its
// end should be, and none before. Example: the line ">s1 x" at 0 ends at 6, and has the name of the index line "s1", with n = 2: byte 3 is the space behind it, byte 5 the LF.
fn defined_so(fasta: &[u8], at: usize, start: usize, index: &[u8], line: usize, n: usize) -> bool
    requires { line + n ≤ length index.now }
    ensures { result ≡ true → DefinedSo fasta.now at start index.now line n }
{
    if fasta.len() < start {
        return false;
    }
    if start <= at {
        return false;
    }
    let last = start - 1;
    if last - at <= n {
        return false;
    }
    if n == 0 {
        return false;
    }
    if fasta[at] != b'>' {
        return false;
    }
    let behind = at + 1 + n;
    if !definition::is_space(fasta[behind]) {
        return false;
    }
    if fasta[last] != b'\n' {
        return false;
    }
    if !clear_to(fasta, at, behind, last) {
        return false;
    }
    same_word(&fasta[at + 1..behind], &index[line..line + n])
}

// The record at `at` and the index line at `line`, if the line is as it is written and describes the record, whose lines are even.
pub(crate) fn passed_at(fasta: &[u8], at: usize, index: &[u8], line: usize) -> Option<Passed>
    ensures { IfSome result (λ passed. PassedAt fasta.now at index.now line passed) }
{
    let mut numbers: [u64; 4] = [0; 4];
    let found = fields::line_at(index, line, &mut numbers)?;
    let start = numbers[1] as usize;
    if !defined_so(fasta, at, start, index, line, found.name) {
        return None;
    }
    let end = walking::quick::even_end(
        fasta,
        start,
        numbers[0] as usize,
        numbers[2] as usize,
        numbers[3] as usize,
    );
    if end == 0 {
        return None;
    }
    Some(Passed {
        fasta: end,
        index: found.end,
    })
}
