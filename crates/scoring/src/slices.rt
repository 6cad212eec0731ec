// A look at 128 places of a key in bit slices, for keys in which many letters stand for several bases: it costs the same for any letters that
// have a code. Lane l of 16 has the places l, 16 + l, 32 + l and so on to 112 + l, so the compiler looks at 16 lanes at once.
//
// The eight letters of a lane are turned to planes: plane i is the byte that has bit i of all eight, the first letter's in its lowest bit. Then
// one operation on bytes is done for eight letters. The letters of `AGAGAGAG` are 65 and 71 by turns, 1000001 and 1000111: plane 0 is 255,
// planes 1 and 2 are 170, and plane 6 is 255.
ghost use Rattle.std.specs.Prelude.{◌≡◌, ℕ, ◌+◌, ◌*◌, ◌≤◌, ◌<◌, length, get_or};
ghost use Rattle.scoring.specs.Rules.{lies};
ghost use Rattle.scoring.specs.Counting.{Counted, agrees};
ghost use Rattle.scoring.specs.Planes.{Swapped, AreParts};
ghost use Rattle.scoring.specs.Turning.{row, Turned};
ghost use Rattle.scoring.specs.Slices.{Gated, IsSets, IsLane};

use crate::places::Places;

// Two bytes.
#[derive(Clone, Copy)]
struct Pair {
    low: u8,
    high: u8,
}

// Eight letters, or eight planes.
#[derive(Clone, Copy)]
struct Eight {
    p0: u8,
    p1: u8,
    p2: u8,
    p3: u8,
    p4: u8,
    p5: u8,
    p6: u8,
    p7: u8,
}

// Of eight letters, a bit for each: it does not stand for A; it stands for C, for G, for T; it has a code. Where it has none the others say
// nothing.
#[derive(Clone, Copy)]
struct Sets {
    na: u8,
    c: u8,
    g: u8,
    t: u8,
    coded: u8,
}

// Of places: how many are right if all letters have a code, and whether they have: then it is 255.
#[derive(Clone, Copy)]
pub(crate) struct Cut {
    pub(crate) right: u8,
    pub(crate) coded: u8,
}

// The even halves of a byte, its even quarters, and its even bits: the lower ones.
const HALVES: u8 = 15;

const QUARTERS: u8 = 51;

const BITS: u8 = 85;

// Swaps the odd parts of the first byte and the even ones of the second. A part has S bits, and M has the even ones. Of 0x21 and 0x43 it makes
// 0x31 and 0x42 by halves. The parts that differ are the bits to change in both.
fn swap<const S: u32, const M: u8>(a: u8, b: u8) -> Pair
    requires { AreParts S M }
    ensures { Swapped S a b result.low result.high }
{
    let t = (a >> S ^ b) & M;
    Pair {
        low: a ^ t << S,
        high: b ^ t,
    }
}

// The planes of eight letters: halves are swapped, then quarters, then bits.
fn turned(x: Eight) -> Eight
    ensures { Turned (row x.p0 x.p1 x.p2 x.p3 x.p4 x.p5 x.p6 x.p7) (row result.p0 result.p1 result.p2 result.p3 result.p4 result.p5 result.p6 result.p7) }
{
    let a = swap::<4, HALVES>(x.p0, x.p4);
    let b = swap::<4, HALVES>(x.p1, x.p5);
    let c = swap::<4, HALVES>(x.p2, x.p6);
    let d = swap::<4, HALVES>(x.p3, x.p7);
    let e = swap::<2, QUARTERS>(a.low, c.low);
    let f = swap::<2, QUARTERS>(b.low, d.low);
    let g = swap::<2, QUARTERS>(a.high, c.high);
    let h = swap::<2, QUARTERS>(b.high, d.high);
    let i = swap::<1, BITS>(e.low, f.low);
    let j = swap::<1, BITS>(e.high, f.high);
    let k = swap::<1, BITS>(g.low, h.low);
    let l = swap::<1, BITS>(g.high, h.high);
    Eight {
        p0: i.low,
        p1: i.high,
        p2: j.low,
        p3: j.high,
        p4: k.low,
        p5: k.high,
        p6: l.low,
        p7: l.high,
    }
}

// The sets of eight letters by their planes. Plane 5 is the bit of lower case. The forms were found by a search for the fewest operations; that
// they are right is computed for each byte.
fn gates(x: Eight) -> Sets
    ensures { Gated x.p0 x.p1 x.p2 x.p3 x.p4 x.p6 x.p7 result.na result.c result.g result.t result.coded }
{
    let c = x.p3 ^ x.p1 & (x.p2 ^ x.p4 & (x.p0 ^ 255) ^ 255);
    let d = x.p2 ^ x.p4;
    let e = c & d;
    let f = c & (x.p0 ^ 255);
    let g = x.p3 ^ d ^ f;
    let h = f | x.p0 & g;
    let t = x.p2 ^ e ^ h;
    let v = x.p1 & (d ^ f | x.p3 & t) ^ (x.p0 | t) & (g & h ^ 255);
    Sets {
        na: x.p4 ^ x.p1 & (e ^ 255),
        c,
        g,
        t,
        coded: v & x.p6 & (x.p7 ^ 255),
    }
}

// The sets of eight letters.
fn sets_of(x: Eight) -> Sets
    ensures { IsSets (row x.p0 x.p1 x.p2 x.p3 x.p4 x.p5 x.p6 x.p7) result.na result.c result.g result.t result.coded }
{
    gates(turned(x))
}

// A lane: a typed letter is wrong if it stands for a base that the key's does not.
fn lane(key: Eight, typed: Eight) -> Cut
    ensures { IsLane (row key.p0 key.p1 key.p2 key.p3 key.p4 key.p5 key.p6 key.p7) (row typed.p0 typed.p1 typed.p2 typed.p3 typed.p4 typed.p5 typed.p6 typed.p7) result.right result.coded }
{
    let k = sets_of(key);
    let t = sets_of(typed);
    let ac = k.na & (t.na ^ 255) | t.c & (k.c ^ 255);
    let gt = t.g & (k.g ^ 255) | t.t & (k.t ^ 255);
    Cut {
        right: u8::count_ones((ac | gt) ^ 255) as u8,
        coded: k.coded & t.coded,
    }
}

// The letters of a lane.
fn letters_of(s: &[u8], q: usize) -> Eight
    requires { q + 113 ≤ length s.now }
    ensures { (j : ℕ) → j < 8 → row result.p0 result.p1 result.p2 result.p3 result.p4 result.p5 result.p6 result.p7 j ≡ get_or s.now (q + 16 * j) 0 }
{
    Eight {
        p0: s[q],
        p1: s[q + 16],
        p2: s[q + 32],
        p3: s[q + 48],
        p4: s[q + 64],
        p5: s[q + 80],
        p6: s[q + 96],
        p7: s[q + 112],
    }
}

// All lanes of 128 places.
pub(crate) fn cut_at(places: &Places, at: usize) -> Cut
    requires { at + 128 ≤ length places.now.key.now }
    ensures { result.coded ≡ 255 → Counted (agrees lies places.now.key.now places.now.typed.now) at 128 result.right }
{
    let mut right: u8 = 0;
    let mut coded: u8 = 255;
    for l in 0..16 {
        let x = lane(
            letters_of(places.key, at + l),
            letters_of(places.typed, at + l),
        );
        right += x.right;
        coded &= x.coded;
    }
    Cut { right, coded }
}
