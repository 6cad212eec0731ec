// Is there an LF in blocks of `N` bytes, which begin at two places or at four. The loops never stop early, so the compiler looks at all bytes of the
// blocks at once; that needs a constant size. An array of places would make each a loop in a loop, for what `|` says.
ghost use Rattle.std.specs.Prelude.{◌≡◌, ◌||◌, ◌+◌, ◌≤◌, length};
ghost use Rattle.lines.specs.Blocks.{lf_in_either};

// Is there an LF among the `N` bytes from `p` on or the `N` from `q` on.
pub(crate) fn lf_in_either<const N: usize>(s: &[u8], p: usize, q: usize) -> bool
    requires { (p + N ≤ length s.now) × (q + N ≤ length s.now) }
    ensures { result ≡ lf_in_either s.now p q N }
{
    let mut any = false;
    for k in 0..N {
        any = any | (s[p + k] == b'\n') | (s[q + k] == b'\n');
    }
    any
}

// Is there an LF among the `N` bytes from `p`, `q`, `u` or `v` on.
pub(crate) fn lf_in_four<const N: usize>(s: &[u8], p: usize, q: usize, u: usize, v: usize) -> bool
    requires { (p + N ≤ length s.now) × (q + N ≤ length s.now) × (u + N ≤ length s.now) × (v + N ≤ length s.now) }
    ensures { result ≡ (lf_in_either s.now p q N || lf_in_either s.now u v N) }
{
    let mut any = false;
    for k in 0..N {
        any = any
            | (s[p + k] == b'\n')
            | (s[q + k] == b'\n')
            | (s[u + k] == b'\n')
            | (s[v + k] == b'\n');
    }
    any
}
