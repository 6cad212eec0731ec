// One copy of bytes, for all that write to a lent output. Up to 128 bytes go by two blocks of 2, 4, 8, 16, 32 or 64 bytes, the last of which may
// begin inside the first, and more by blocks of 32. A copy takes what is there and what has room: it refuses nothing.
#![tactic(auto)]

ghost use Rattle.std.specs.Prelude.{◌≡◌, ◌+◌, ◌≤◌, ◌<◌, ◌++◌, length, take, drop};
ghost use Rattle.copying.specs.Copied.{after_copy};

use std::simd::Simd;

// Copies the first `N` bytes. They are all read before one is written, so that they move together.
fn put<const N: usize>(from: &[u8], out: &mut [u8])
    requires { (N ≤ length from.now) × (N ≤ length out.old) }
    ensures { out.new ≡ take N from.now ++ drop N out.old }
{
    Simd::<u8, N>::from_slice(from).copy_to_slice(out);
}

// Copies all bytes, `N` to twice as many, by two blocks of `N`. Here and below both slices have one length, as `copy_from_slice` asks too: a struct
// of the two would be no plainer.
fn pair<const N: usize>(from: &[u8], out: &mut [u8])
    requires { (N ≤ length from.now) × (length from.now ≤ N + N) × (length from.now ≡ length out.old) }
    ensures { out.new ≡ from.now }
{
    let last = from.len() - N;
    put::<N>(from, out);
    put::<N>(&from[last..], &mut out[last..]);
}

// Copies all bytes, at least 32, by blocks of 32; the last ends with the last byte.
fn copy_blocks(from: &[u8], out: &mut [u8])
    requires { (32 ≤ length from.now) × (length from.now ≡ length out.old) }
    ensures { out.new ≡ from.now }
{
    let last = from.len() - 32;
    for k in (0..last).step_by(32) {
        put::<32>(&from[k..], &mut out[k..]);
    }
    put::<32>(&from[last..], &mut out[last..]);
}

// Copies all bytes, fewer than 16.
fn copy_short(from: &[u8], out: &mut [u8])
    requires { (length from.now < 16) × (length from.now ≡ length out.old) }
    ensures { out.new ≡ from.now }
{
    if 8 <= from.len() {
        pair::<8>(from, out);
    } else if 4 <= from.len() {
        pair::<4>(from, out);
    } else if 2 <= from.len() {
        pair::<2>(from, out);
    } else if from.len() == 1 {
        out[0] = from[0];
    }
}

// Copies all bytes, by the way that is quick for so many.
fn copy_all(from: &[u8], out: &mut [u8])
    requires { length from.now ≡ length out.old }
    ensures { out.new ≡ from.now }
{
    match from.len() {
        ..16 => copy_short(from, out),
        16..=32 => pair::<16>(from, out),
        33..=64 => pair::<32>(from, out),
        65..=128 => pair::<64>(from, out),
        _ => copy_blocks(from, out),
    }
}

// Copies up to `n` bytes of `from`, from `start` on, to the output, from `to` on: as many as are there and have room. All else stays.
// Places and a count, and no slices: it takes any of them, as docs/PROMISES.md says by its clause.
pub fn copy_run(from: &[u8], start: usize, n: usize, out: &mut [u8], to: usize)
    ensures { out.new ≡ after_copy out.old to (drop start from.now) n }
{
    let first = start.min(from.len());
    let place = to.min(out.len());
    let fitting = n.min(from.len() - first).min(out.len() - place);
    copy_all(
        &from[first..first + fitting],
        &mut out[place..place + fitting],
    );
}
