// Looks at places by their letters alone, and by the letters that the key means: where these tell edition 2, no set of bases is looked up.
ghost use Rattle.std.specs.Prelude.{◌≡◌, ℕ, Bool, true, ◌+◌, ◌≤◌, length};
ghost use Rattle.letters.specs.Sets.{bit};
ghost use Rattle.scoring.specs.Rules.{lies};
ghost use Rattle.scoring.specs.Plain.{is_lone, is_uracil, alike, told, told-alike};
ghost use Rattle.scoring.specs.Meant.{is_clear, is_thymine, meant, clear, fits, clear-fits};
ghost use Rattle.scoring.specs.Counting.{Counted, agrees};

use crate::places::Places;

// What is seen of some places: how many are right if all of them are told, and how many are told.
#[derive(Clone, Copy)]
pub(crate) struct Seen {
    pub(crate) right: u8,
    pub(crate) told: u8,
}

// Is a byte A, C, G or T, or E, in either case: letters that stand for one base, and one that stands for none. Of these but T all have the
// bit 1, and may differ in the bits 2 and 4.
fn is_lone(b: u8) -> bool
    ensures { result ≡ is_lone b }
{
    let low = b | 32;
    (low | 6 == b'g') | (low == b't')
}

// Is a byte U, in either case: the other letter of T's base.
fn is_uracil(b: u8) -> bool
    ensures { result ≡ is_uracil b }
{
    b | 32 == b'u'
}

// Is edition 2 told by the letters alone, as a number: the key's letter stands for one base at most, and no U was typed.
fn told_bit(k: u8, t: u8) -> u8
    ensures { result ≡ bit (told k t) }
{
    (is_lone(k) & !is_uracil(t)) as u8
}

// Are two bytes the same but for the bit of lower case, as a number.
fn alike_bit(k: u8, t: u8) -> u8
    ensures { result ≡ bit (alike k t) }
{
    (k | 32 == t | 32) as u8
}

// Is a letter in lower case T or U: they differ in the bit 1.
fn is_thymine(x: u8) -> bool
    ensures { result ≡ is_thymine x }
{
    x | 1 == b'u'
}

// The letter that the key means, in lower case: what was typed where the key has N, else its own. The key `ANT` and typed `AGU` mean a, g
// and t.
fn meant(k: u8, t: u8) -> u8
    ensures { result ≡ meant k t }
{
    if k | 32 == b'n' {
        return t | 32;
    }
    k | 32
}

// Is a letter in lower case A, C, G, T, U or N. C and G differ in the bit 4. N is meant only where N was typed for N.
fn is_clear(x: u8) -> bool
    ensures { result ≡ is_clear x }
{
    (x | 4 == b'g') | (x == b'a') | is_thymine(x) | (x == b'n')
}

// Is edition 2 told by the letter that the key means, as a number.
fn clear_bit(k: u8, t: u8) -> u8
    ensures { result ≡ bit (clear k t) }
{
    is_clear(meant(k, t)) as u8
}

// Was the letter typed that the key means, as a number. The two may differ in the bit 1 where it is T or U.
fn fits_bit(k: u8, t: u8) -> u8
    ensures { result ≡ bit (fits k t) }
{
    let x = meant(k, t);
    (x ^ (t | 32) <= is_thymine(x) as u8) as u8
}

// A look at single places that tells edition 2 at some of them.
pub(crate) trait Look {
    ghost right: { ℕ → ℕ → Bool };

    ghost tells: { ℕ → ℕ → Bool };

    // Is what was typed right if the look tells it, as a number.
    fn right_bit(k: u8, t: u8) -> u8
        ensures { result ≡ bit (right k t) };

    // Does the look tell it, as a number.
    fn told_bit(k: u8, t: u8) -> u8
        ensures { result ≡ bit (tells k t) };

    ghost sound: { (k t : ℕ) → tells k t ≡ true → right k t ≡ lies k t };
}

// By the letters alone.
pub(crate) struct ByLetter;

// By the letters that the key means.
pub(crate) struct ByMeaning;

impl Look for ByLetter {
    ghost right = { alike };

    ghost tells = { told };

    ghost sound = { told-alike };

    fn right_bit(k: u8, t: u8) -> u8 {
        alike_bit(k, t)
    }

    fn told_bit(k: u8, t: u8) -> u8 {
        told_bit(k, t)
    }
}

impl Look for ByMeaning {
    ghost right = { fits };

    ghost tells = { clear };

    ghost sound = { clear-fits };

    fn right_bit(k: u8, t: u8) -> u8 {
        fits_bit(k, t)
    }

    fn told_bit(k: u8, t: u8) -> u8 {
        clear_bit(k, t)
    }
}

// How many of some places are right if all are told, and how many are told: of `ACGN` and typed `acTa` two and three by the letters alone, three
// and four by those that the key means. Both are counted in one loop, in bytes, so that the compiler counts 32 places at once; 224 is the most
// times 32 that a byte holds.
pub(crate) fn seen_in<L: Look>(places: &Places, at: usize, n: usize) -> Seen
    requires { (n ≤ 224) × (at + n ≤ length places.now.key.now) }
    ensures { Counted (agrees L.right places.now.key.now places.now.typed.now) at n result.right × Counted (agrees L.tells places.now.key.now places.now.typed.now) at n result.told }
{
    let mut right: u8 = 0;
    let mut told: u8 = 0;
    for j in 0..n {
        let k = places.key[at + j];
        let t = places.typed[at + j];
        right += L::right_bit(k, t);
        told += L::told_bit(k, t);
    }
    Seen { right, told }
}
