// What was typed against a key: how many places of the key are right, wrong and missing, how much was typed past it, and the score,
// whose denominator is what was asked. Refused: 1 for bytes over the limit, then 33 for an edition that is not known.
#![tactic(auto)]

mod by_letters;
mod lanes;
mod places;
mod slices;

ghost use Rattle.std.specs.Prelude.{◌≡◌, ℕ, Bool, not, ◌+◌, ◌*◌, ◌≤◌, ◌<◌, ltb, length};
ghost use Rattle.std.proofs.Common.{rules};
ghost use Rattle.letters.specs.Letters.{set_of};
ghost use Rattle.letters.specs.Sets.{bit};
ghost use Rattle.letters.specs.Table.{IsTable};
ghost use Rattle.scoring.specs.Rules.{folded, same, lies};
ghost use Rattle.scoring.specs.Open.{is_open, open_lies};
ghost use Rattle.scoring.specs.Lanes.{IsLanes, weigh, sum_to};
ghost use Rattle.scoring.specs.Bits.{hits, place};
ghost use Rattle.scoring.specs.Places.{tenths, score_by, key_scored, scored_as};
ghost use Rattle.scoring.specs.Counting.{Counted, agrees};

use by_letters::{ByLetter, ByMeaning, Look};
use places::Places;
use refusal::Refusal;

// The counts over a key's places, the typed bytes past it, and the score in tenths of a percent.
#[derive(Clone, Copy)]
pub struct Score {
    pub right: u64,
    pub wrong: u64,
    pub missing: u64,
    pub surplus: u64,
    pub score: u64,
}

// Some places from the front of others: how many they are, and how many of them are right.
#[derive(Clone, Copy)]
struct Passed {
    places: usize,
    right: usize,
}

// The rule of an edition.
trait Rule {
    ghost says: { ℕ → ℕ → Bool };

    // Is what was typed right at a place of the key, as a number.
    fn right_bit(sets: &[u8; 256], k: u8, t: u8) -> u8
        requires { IsTable set_of sets.now }
        ensures { result ≡ bit (says k t) };
}

// A rule by which some places in a row are looked at together.
trait Blocks: Rule {
    ghost SIZE: { ℕ };

    // How many they are.
    const SIZE: usize;

    // How many of them are right.
    fn right_in_block(places: &Places, at: usize) -> usize
        requires { at + SIZE ≤ length places.now.key.now }
        ensures { Counted (agrees Self.says places.now.key.now places.now.typed.now) at SIZE result };

    ghost some: { 1 ≤ SIZE };
}

// An edition, which has its own way to count.
trait Edition: Rule {
    // How many of all places are right.
    fn right_in(places: &Places) -> usize
        ensures { Counted (agrees Self.says places.now.key.now places.now.typed.now) 0 (length places.now.key.now) result };
}

// Edition 1: the key's byte was typed, upper and lower case alike.
struct First;

// Edition 2: what was typed stands for bases that the key's letter stands for too.
struct Second;

impl Rule for First {
    ghost says = { same };

    fn right_bit(_sets: &[u8; 256], k: u8, t: u8) -> u8 {
        same_bit(k, t)
    }
}

impl Rule for Second {
    ghost says = { lies };

    fn right_bit(sets: &[u8; 256], k: u8, t: u8) -> u8 {
        lies_bit(sets, k, t)
    }
}

impl Blocks for First {
    ghost SIZE = { 32 };

    ghost some = { Prim.search rules };

    const SIZE: usize = 32;

    fn right_in_block(places: &Places, at: usize) -> usize {
        usize::from(same32(places, at))
    }
}

impl Blocks for Second {
    ghost SIZE = { 128 };

    ghost some = { Prim.search rules };

    const SIZE: usize = 128;

    fn right_in_block(places: &Places, at: usize) -> usize {
        part(places, at)
    }
}

impl Edition for First {
    fn right_in(places: &Places) -> usize {
        in_blocks::<First>(places, 0, places.key.len())
    }
}

impl Edition for Second {
    fn right_in(places: &Places) -> usize {
        second_in(places)
    }
}

// An ASCII letter in upper case; another byte as it is.
fn folded(b: u8) -> u8
    ensures { result ≡ folded b }
{
    // `to_ascii_uppercase` makes edition 1 quicker, and edition 2 then misses its goal beside it (at most 30 % more).
    if b < 97 {
        return b;
    }
    if 122 < b {
        return b;
    }
    b - 32
}

// Is a typed byte right in edition 1, as a number.
fn same_bit(k: u8, t: u8) -> u8
    ensures { result ≡ bit (same k t) }
{
    (folded(k) == folded(t)) as u8
}

// The same in edition 2.
fn lies_bit(sets: &[u8; 256], k: u8, t: u8) -> u8
    requires { IsTable set_of sets.now }
    ensures { result ≡ bit (lies k t) }
{
    let set = sets[t as usize];
    if set == 0 {
        return same_bit(k, t);
    }
    (set & sets[k as usize] == set) as u8
}

// How many of 32 places are right in edition 1.
fn same32(places: &Places, at: usize) -> u8
    requires { at + 32 ≤ length places.now.key.now }
    ensures { Counted (agrees same places.now.key.now places.now.typed.now) at 32 result }
{
    let mut right: u8 = 0;
    for j in 0..32 {
        right += same_bit(places.key[at + j], places.typed[at + j]);
    }
    right
}

// How many of n places are right, one by one.
fn run<R: Rule>(places: &Places, at: usize, n: usize) -> usize
    requires { at + n ≤ length places.now.key.now }
    ensures { Counted (agrees R.says places.now.key.now places.now.typed.now) at n result }
{
    let mut right: usize = 0;
    for j in 0..n {
        right += usize::from(R::right_bit(places.sets, places.key[at + j], places.typed[at + j]));
    }
    right
}

// The same by blocks, and what is left of them one by one.
fn in_blocks<B: Blocks>(places: &Places, at: usize, n: usize) -> usize
    requires { at + n ≤ length places.now.key.now }
    ensures { Counted (agrees B.says places.now.key.now places.now.typed.now) at n result }
{
    let mut right: usize = 0;
    let blocks = n / B::SIZE;
    for b in 0..blocks {
        right += B::right_in_block(places, at + b * B::SIZE);
    }
    let done = blocks * B::SIZE;
    right + run::<B>(places, at + done, n - done)
}

// How many of the first places are right in edition 2, by letters that tell it, up to the first part that they do not tell.
fn told_in<L: Look>(places: &Places, at: usize, n: usize) -> Passed
    requires { at + n ≤ length places.now.key.now }
    ensures { (result.places ≤ n) × Counted (agrees lies places.now.key.now places.now.typed.now) at result.places result.right }
{
    let mut right: usize = 0;
    for j in (0..n).step_by(224) {
        let m = (n - j).min(224);
        let seen = by_letters::seen_in::<L>(places, at + j, m);
        if usize::from(seen.told) < m {
            return Passed { places: j, right };
        }
        right += usize::from(seen.right);
    }
    Passed { places: n, right }
}

// How many of the places that the bits of a word stand for are right in edition 2. Each turn takes the lowest bit away.
fn walk(places: &Places, at: usize, word: u64) -> usize
    requires { hits (λ i. not (ltb (at + place i) (length places.now.key.now))) 64 0 word ≡ 0 }
    ensures { result ≡ hits (λ i. agrees lies places.now.key.now places.now.typed.now (at + place i)) 64 0 word }
{
    let mut right: usize = 0;
    let mut x = word;
    // No index is counted: the word runs out of bits.
    while x != 0 {
        let p = at + usize::from(lanes::place(u64::trailing_zeros(x) as u8));
        right += usize::from(lies_bit(places.sets, places.key[p], places.typed[p]));
        x &= x - 1;
    }
    right
}

// The same of all lanes, which have their open places.
fn walks(places: &Places, at: usize, blocks: usize, opens: &[u8; 32]) -> usize
    requires { (blocks ≤ 7) × (at + 32 * blocks ≤ length places.now.key.now) × IsLanes (agrees is_open places.now.key.now places.now.typed.now) 2 at blocks opens.now }
    ensures { result ≡ sum_to (weigh (agrees open_lies places.now.key.now places.now.typed.now) 1 at blocks) 32 }
{
    let mut right: usize = 0;
    for i in 0..4 {
        right += walk(places, at + 8 * i, lanes::word(opens, 8 * i));
    }
    right
}

// An estimate of how many places are open, by the first eight lanes. It is 0 where most places are right and settled.
fn many(opens: &[u8; 32], right: usize, n: usize) -> u32
    requires { right ≤ 224 }
{
    if right + 20 < n {
        return u64::count_ones(lanes::word(opens, 0));
    }
    0
}

// How many places of some blocks are right in edition 2: those that are settled, and the open ones, bit by bit. None is passed where many are
// open: there slices are quicker.
fn open_part(places: &Places, at: usize, blocks: usize) -> Passed
    requires { (blocks ≤ 7) × (at + 32 * blocks ≤ length places.now.key.now) }
    ensures { (result.places ≤ 32 * blocks) × Counted (agrees lies places.now.key.now places.now.typed.now) at result.places result.right }
{
    let lanes = lanes::lanes_in(places, at, blocks);
    let settled = lanes::total(&lanes.right);
    if 7 < many(&lanes.opens, settled, 32 * blocks) {
        return Passed {
            places: 0,
            right: 0,
        };
    }
    Passed {
        places: 32 * blocks,
        right: settled + walks(places, at, blocks, &lanes.opens),
    }
}

// How many of 128 places are right in edition 2: by slices, or place by place where a letter has no code.
fn part(places: &Places, at: usize) -> usize
    requires { at + 128 ≤ length places.now.key.now }
    ensures { Counted (agrees lies places.now.key.now places.now.typed.now) at 128 result }
{
    let cut = slices::cut_at(places, at);
    if cut.coded == 255 {
        return usize::from(cut.right);
    }
    run::<Second>(places, at, 128)
}

// How many of the first places are right in edition 2: by blocks up to the first part with many open places, and from there on by slices, up to
// 65,536 places more, since what follows is likely to be the same. Two calls keep the slices out of the function that has the other loops.
// The part of the places, `at` and `n`, is another at each call: a struct of it and the places would be made anew by each.
fn open_in(places: &Places, at: usize, n: usize) -> Passed
    requires { at + n ≤ length places.now.key.now }
    ensures { (result.places ≤ n) × (0 < n → 0 < result.places) × Counted (agrees lies places.now.key.now places.now.typed.now) at result.places result.right }
{
    let mut right: usize = 0;
    let mut j = 0;
    // A `for` has equal steps; here each look says how far the next one begins.
    while 32 <= n - j {
        let blocks = ((n - j) / 32).min(7);
        let look = open_part(places, at + j, blocks);
        if look.places == 0 {
            let m = (n - j).min(65536);
            return Passed {
                places: j + m,
                right: right + in_blocks::<Second>(places, at + j, m),
            };
        }
        right += look.right;
        j += look.places;
    }
    Passed {
        places: n,
        right: right + in_blocks::<Second>(places, at + j, n - j),
    }
}

// The same of all places: by the letters that the key means as far as they tell, then by blocks, and again.
fn second_rest(places: &Places, at: usize, n: usize) -> usize
    requires { at + n ≤ length places.now.key.now }
    ensures { Counted (agrees lies places.now.key.now places.now.typed.now) at n result }
{
    let first = told_in::<ByMeaning>(places, at, n);
    let mut right = first.right;
    let mut j = first.places;
    // A `for` has equal steps; here each look says how far the next one begins.
    while j < n {
        let looked = open_in(places, at + j, n - j);
        right += looked.right;
        j += looked.places;
        let clear = told_in::<ByMeaning>(places, at + j, n - j);
        right += clear.right;
        j += clear.places;
    }
    right
}

// How many of all places are right in edition 2: by the letters alone, which is quickest, up to the first part that they do not tell.
// From there on they are not tried again: a key that has one N is likely to have more.
fn second_in(places: &Places) -> usize
    ensures { Counted (agrees lies places.now.key.now places.now.typed.now) 0 (length places.now.key.now) result }
{
    let n = places.key.len();
    let first = told_in::<ByLetter>(places, 0, n);
    first.right + second_rest(places, first.places, n - first.places)
}

// The score of so many right places, of a whole.
fn tenths(right: u64, whole: u64) -> u64
    requires { right ≤ 1099511627776 }
    ensures { result ≡ tenths right whole }
{
    if whole == 0 {
        return 0;
    }
    1000 * right / whole
}

// The counts and the score of a key and what was typed, in an edition.
fn score_by<E: Edition>(key: &[u8], typed: &[u8]) -> Score
    requires { length typed.now ≤ 1099511627776 }
    ensures { result ≡ score_by E.says key.now typed.now }
{
    let both = key.len().min(typed.len());
    let sets = letters::sets();
    let right = E::right_in(&Places {
        key: &key[..both],
        typed: &typed[..both],
        sets: &sets,
    });
    let surplus = typed.len() - both;
    let score = tenths(right as u64, (key.len() + surplus) as u64);
    Score {
        right: right as u64,
        wrong: (both - right) as u64,
        missing: (key.len() - both) as u64,
        surplus: surplus as u64,
        score,
    }
}

// The same, by an edition's number, of a key that was fetched: it is no lent input, and only what was typed is judged for the limit.
pub fn score_key(key: &[u8], typed: &[u8], edition: u64) -> Result<Score, Refusal>
    ensures { result ≡ key_scored key.now typed.now edition }
{
    if refusal::over_limit(typed.len()) {
        return Err(Refusal::TooLong);
    }
    match edition {
        1 => Ok(score_by::<First>(key, typed)),
        2 => Ok(score_by::<Second>(key, typed)),
        _ => Err(Refusal::UnknownEdition { offset: 0 }),
    }
}

// The same of a key that is lent.
pub fn score_typed(key: &[u8], typed: &[u8], edition: u64) -> Result<Score, Refusal>
    ensures { result ≡ scored_as key.now typed.now edition }
{
    if refusal::over_limit(key.len()) {
        return Err(Refusal::TooLong);
    }
    score_key(key, typed, edition)
}
