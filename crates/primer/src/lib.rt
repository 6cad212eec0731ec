// Primers: how many plain sequences one stands for, and where a text has one.
//
// A primer has 1 to 31 letters. Each stands for a set of bases. A text byte fits a primer letter if its set lies inside the
// letter's; a byte without a code fits none. Calls are refused, in this order, for lent bytes over the size limit (1), a primer of
// another length (36), and a primer letter without a code (37, with the first such place).
#![tactic(auto)]

mod pattern;

ghost use Rattle.std.specs.Prelude.{◌≡◌, ℕ, ◌+◌, ◌-◌, ◌^◌, ◌≤◌, ◌<◌, length, get_or};
ghost use Rattle.std.specs.Int.Count.{ones};
ghost use Rattle.letters.specs.Letters.{set_of};
ghost use Rattle.letters.specs.Sets.{bit, inside};
ghost use Rattle.letters.specs.Table.{IsTable};
ghost use Rattle.primer.specs.Search.{first_of, next_of};
ghost use Rattle.primer.specs.Primer.{judged, place_told, place_read, degeneracy_read};
ghost use Rattle.primer.specs.Sequences.{stands_for};
ghost use Rattle.primer.specs.Live.{mask_of, mask_by, state_of, Passed, Reading};

use pattern::Pattern;
use refusal::Refusal;

// The set of a letter.
fn set_of(sets: &[u8; 256], letter: u8) -> u8
    requires { IsTable set_of sets.now }
    ensures { result ≡ set_of letter }
{
    sets[letter as usize]
}

// Judges a primer: its length before its letters, and these from the first on.
fn judge(primer: &[u8]) -> Result<(), Refusal>
    ensures { result ≡ judged primer.now }
{
    if primer.is_empty() || 31 < primer.len() {
        return Err(Refusal::PrimerLength);
    }
    let sets = letters::sets();
    for (i, &letter) in primer.iter().enumerate() {
        if set_of(&sets, letter) == 0 {
            return Err(Refusal::PrimerLetter { place: i as u64 });
        }
    }
    Ok(())
}

// How many bases a set has.
fn bases_in(set: u8) -> u64
    ensures { result ≡ ones set }
{
    u64::from(set.count_ones())
}

// How many plain sequences the letters stand for: the bases that each allows, multiplied together.
fn count_sequences(primer: &[u8]) -> u64
    requires { length primer.now ≤ 31 }
    ensures { result ≡ length (stands_for primer.now) }
{
    let sets = letters::sets();
    let mut product: u64 = 1;
    for k in (0..primer.len()).rev() {
        product = bases_in(set_of(&sets, primer[k])) * product;
    }
    product
}

// How many plain sequences a primer stands for.
pub fn degeneracy(primer: &[u8]) -> Result<u64, Refusal>
    ensures { result ≡ degeneracy_read primer.now }
{
    if refusal::over_limit(primer.len()) {
        return Err(Refusal::TooLong);
    }
    judge(primer)?;
    Ok(count_sequences(primer))
}

// Does a text letter's set lie inside a primer letter's, as a bit.
fn inside_bit(set: u8, letter: u8) -> u32
    ensures { result ≡ bit (inside set letter) }
{
    if set == 0 {
        return 0;
    }
    (set & letter == set) as u32
}

// Which letters of a primer a set lies inside: bit j for letter j.
fn mask_of(sets: &[u8; 256], primer: &[u8], set: u8) -> u32
    requires { IsTable set_of sets.now × (length primer.now ≤ 31) }
    ensures { result ≡ mask_by primer.now set }
{
    let mut mask: u32 = 0;
    for j in (0..primer.len()).rev() {
        mask = mask * 2 + inside_bit(set, set_of(sets, primer[j]));
    }
    mask
}

// The same for each set.
fn masks_by_set(sets: &[u8; 256], primer: &[u8]) -> [u32; 16]
    requires { IsTable set_of sets.now × (length primer.now ≤ 31) }
    ensures { (t : ℕ) → t < 16 → get_or result t 0 ≡ mask_by primer.now t }
{
    let mut masks = [0u32; 16];
    for t in 0..16 {
        masks[t as usize] = mask_of(sets, primer, t);
    }
    masks
}

// The same for each byte, by its set.
fn masks_by_byte(primer: &[u8]) -> [u32; 256]
    requires { length primer.now ≤ 31 }
    ensures { (b : ℕ) → b < 256 → get_or result b 0 ≡ mask_of primer.now b }
{
    let sets = letters::sets();
    let by_set = masks_by_set(&sets, primer);
    let mut masks = [0u32; 256];
    for b in 0..256 {
        masks[b] = by_set[sets[b] as usize];
    }
    masks
}

// The first place of a primer in a text that is not before a given place.
fn next(primer: &[u8], text: &[u8], from: usize) -> Result<Option<usize>, Refusal>
    requires { (1 ≤ length primer.now) × (length primer.now ≤ 31) }
    ensures { result ≡ place_told (next_of primer.now text.now from) }
{
    if text.len() < from {
        return Ok(None);
    }
    match Pattern::new(primer).find(&text[from..]) {
        Some(k) => Ok(Some(from + k)),
        None => Ok(None),
    }
}

// The same for any primer: the sizes, then the primer's length, then its letters are judged.
pub fn find_next(primer: &[u8], text: &[u8], from: usize) -> Result<Option<usize>, Refusal>
    ensures { result ≡ place_read primer.now text.now from }
{
    if refusal::over_limit(primer.len()) {
        return Err(Refusal::TooLong);
    }
    if refusal::over_limit(text.len()) {
        return Err(Refusal::TooLong);
    }
    judge(primer)?;
    next(primer, text, from)
}
