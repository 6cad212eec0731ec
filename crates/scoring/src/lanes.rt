// A look at the places of a key in blocks of 32, for keys with letters of several bases. Lane l of the blocks has the places l, 32 + l, 64 + l
// and so on, so the compiler looks at 16 places at once, each in a lane of its own.
//
// A place is settled if the key's letter stands for one base at most; the letters tell it, and each lane counts those that are right. The
// other places are open. Each lane has a bit for each of its places that says whether it is open: so the open places of a part are found
// in four words, by their bits, and are few to look at.
ghost use Rattle.std.specs.Prelude.{◌≡◌, not, ◌&&◌, ℕ, ◌+◌, ◌*◌, ◌≤◌, ◌<◌, length, get_or};
ghost use Rattle.letters.specs.Sets.{bit};
ghost use Rattle.scoring.specs.Counting.{agrees};
ghost use Rattle.scoring.specs.Open.{is_single, near, hit, is_open};
ghost use Rattle.scoring.specs.Lanes.{IsLanes, sum_to};
ghost use Rattle.scoring.specs.Bits.{place, word_at};

use crate::places::Places;

// What the lanes have: how many of their places are right and settled, and the bits of their open places, the first block's the lowest.
#[derive(Clone, Copy)]
pub(crate) struct Lanes {
    pub(crate) right: [u8; 32],
    pub(crate) opens: [u8; 32],
}

// Is a letter in lower case A, C, G or T, or E. Of these but T all have the bit 1, and may differ in the bits 2 and 4.
fn is_single(x: u8) -> bool
    ensures { result ≡ is_single x }
{
    (x | 6 == b'g') | (x == b't')
}

// Is a typed byte right and settled by the key's letter in lower case, as a number: it was typed, or U for T. These differ in the bit 1.
fn hit_bit(x: u8, t: u8) -> u8
    ensures { result ≡ bit (is_single x && near x t) }
{
    (is_single(x) & (x ^ (t | 32) <= (x == b't') as u8)) as u8
}

// Is a place open by the key's letter in lower case, as a number.
fn open_bit(x: u8) -> u8
    ensures { result ≡ bit (not (is_single x)) }
{
    !is_single(x) as u8
}

// The lanes of some blocks, from the last to the first: of the key `ACRT` and typed `ACGU`, in one block, the lanes 0 to 3 have 1, 1, 0 and 1
// right, and 0, 0, 1 and 0 open.
pub(crate) fn lanes_in(places: &Places, at: usize, blocks: usize) -> Lanes
    requires { (blocks ≤ 7) × (at + 32 * blocks ≤ length places.now.key.now) }
    ensures { IsLanes (agrees hit places.now.key.now places.now.typed.now) 1 at blocks result.right × IsLanes (agrees is_open places.now.key.now places.now.typed.now) 2 at blocks result.opens }
{
    let mut right = [0u8; 32];
    let mut opens = [0u8; 32];
    for b in (0..blocks).rev() {
        let q = at + 32 * b;
        for l in 0..32 {
            let x = places.key[q + l] | 32;
            right[l] += hit_bit(x, places.typed[q + l]);
            opens[l] = opens[l] * 2 + open_bit(x);
        }
    }
    Lanes { right, opens }
}

// The number of eight lanes, the first being the lowest byte.
pub(crate) fn word(lanes: &[u8; 32], w: usize) -> u64
    requires { w + 8 ≤ 32 }
    ensures { result ≡ word_at lanes.now w }
{
    u64::from_le_bytes([
        lanes[w],
        lanes[w + 1],
        lanes[w + 2],
        lanes[w + 3],
        lanes[w + 4],
        lanes[w + 5],
        lanes[w + 6],
        lanes[w + 7],
    ])
}

// The sum of the lanes, each of which is 7 at most: 256 is one more than 255, so the rest by 255 is the sum of bytes.
pub(crate) fn total(lanes: &[u8; 32]) -> usize
    requires { (i : ℕ) → i < 32 → get_or lanes.now i 0 ≤ 7 }
    ensures { result ≡ sum_to (λ i. get_or lanes.now i 0) 32 }
{
    let mut x: u64 = 0;
    for i in 0..4 {
        x += word(lanes, 8 * i);
    }
    (x % 255) as usize
}

// The place that a bit of a word stands for: bit 8 l + b is place l of block b, 32 b + l, which is a turn of the number by five bits. Bit 10 is
// place 65.
pub(crate) fn place(z: u8) -> u8
    requires { z < 64 }
    ensures { result ≡ place z }
{
    z << 5 | z >> 3
}
