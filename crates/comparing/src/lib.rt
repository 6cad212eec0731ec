// Are bytes the same. Names are compared once for every record and row, so 8 bytes or more go by blocks of 8, of which the last may begin inside
// the one before. Nothing is refused: bytes of different count are not the same, and a span ends with its bytes.
#![tactic(auto)]

ghost use Rattle.std.specs.Prelude.{◌≡◌, ◌≤◌, length, take, drop};
ghost use Rattle.lines.specs.Same.{same_bytes};

// Are the first 8 bytes the same. The loop never stops early, so the compiler compares all of them at once.
fn same_8(a: &[u8], b: &[u8]) -> bool
    requires { (8 ≤ length a.now) × (8 ≤ length b.now) }
    ensures { result ≡ same_bytes (take 8 a.now) (take 8 b.now) }
{
    let mut all = true;
    for k in 0..8 {
        all &= a[k] == b[k];
    }
    all
}

// Are as many bytes, at least 8, the same: of 12 bytes the blocks begin at places 0 and 4.
fn same_many(a: &[u8], b: &[u8]) -> bool
    requires { (length a.now ≡ length b.now) × (8 ≤ length a.now) }
    ensures { result ≡ same_bytes a.now b.now }
{
    let before = (a.len() - 1) / 8;
    for k in 0..before {
        if !same_8(&a[8 * k..], &b[8 * k..]) {
            return false;
        }
    }
    let last = a.len() - 8;
    same_8(&a[last..], &b[last..])
}

// Are some bytes the same as others. `a == b` alone takes 22 instructions more for names of 12 bytes, and a checked record has 3 to spare.
pub fn same(a: &[u8], b: &[u8]) -> bool
    ensures { result ≡ same_bytes a.now b.now }
{
    if a.len() != b.len() {
        return false;
    }
    if a.len() < 8 {
        return a == b;
    }
    same_many(a, b)
}

// The `n` bytes from `start` on, or as many as are there.
fn span(l: &[u8], start: usize, n: usize) -> &[u8]
    ensures { result.now ≡ take n (drop start l.now) }
{
    let first = start.min(l.len());
    &l[first..first + n.min(l.len() - first)]
}

// Are the `n` bytes of `a` from `start` on the same as the `m` bytes of `b` from `from` on. A span has no byte past the end of its bytes.
pub fn same_spans(a: &[u8], start: usize, n: usize, b: &[u8], from: usize, m: usize) -> bool
    ensures { result ≡ same_bytes (take n (drop start a.now)) (take m (drop from b.now)) }
{
    same(span(a, start, n), span(b, from, m))
}
