// A line of a name and numbers with tabs between, read by fields from the left, and written. How many numbers a line has is the
// caller's to say, by the table of numbers that it lends.
ghost use Rattle.std.specs.Prelude.{◌≡◌, true, ◌+◌, ◌*◌, ◌^◌, ◌<◌, ◌≤◌, length, take, drop, IfSome, MatchOption};
ghost use Rattle.columns.specs.Bytes.{first_where, overlaid};
ghost use Rattle.columns.specs.Among.{among};
ghost use Rattle.output.specs.Outcome.{leaves};
ghost use Rattle.columns.specs.Fields.{zero_barred, field_says, numbers_from, numbers_text, text_of, splits, text_written, text_within};
ghost use Rattle.columns.specs.Reading.{field_len, behind, told};
ghost use Rattle.columns.specs.Quick.{DigitsAt};
ghost use Rattle.columns.specs.Standing.{NumbersAt, LineAt, ReadAll};

use crate::decimal;
use refusal::Refusal;

// A field that is a number: its value, how many bytes it has, and whether it has no needless leading zero and no plus.
#[derive(Clone, Copy)]
pub struct Field {
    pub value: u64,
    pub length: usize,
    pub plain: bool,
}

// The bytes that end a field, and a line.
const TAB: u8 = b'\t';

const LF: u8 = b'\n';

// Is one of the N bytes from place `i` on a tab or an LF. The loop never stops early and N is constant, so the compiler looks at all of them at once.
fn split_in<const N: usize>(l: &[u8], i: usize) -> bool
    requires { i + N ≤ length l.now }
    ensures { result ≡ among splits (take N (drop i l.now)) }
{
    let mut any = false;
    for &b in &l[i..i + N] {
        any = any | (b == TAB) | (b == LF);
    }
    any
}

// The place of the first tab or LF from place `from` on, byte by byte; the length where there is none.
fn first_near(l: &[u8], from: usize) -> usize
    requires { from ≤ length l.now }
    ensures { result ≡ from + first_where splits (drop from l.now) }
{
    for i in from..l.len() {
        if (l[i] == TAB) | (l[i] == LF) {
            return i;
        }
    }
    l.len()
}

// The place of the first tab or LF from place `from` on; the length where there is none. Blocks of 8 bytes that have none are passed; the last
// ends where the bytes end, and may begin inside the one before: of 12 bytes the blocks begin at places 0 and 4.
fn first_split(l: &[u8], from: usize) -> usize
    requires { from ≤ length l.now }
    ensures { result ≡ from + first_where splits (drop from l.now) }
{
    if l.len() < 8 {
        return first_near(l, from);
    }
    let last = l.len() - 8;
    for i in (from..last).step_by(8) {
        if split_in::<8>(l, i) {
            return first_near(l, i);
        }
    }
    if split_in::<8>(l, last) {
        return first_near(l, from.max(last));
    }
    l.len()
}

// How many bytes the first field of `l` has, where so many tabs cut. An LF is passed: few lines have one before their end.
// The loop stays a `while`: each place comes from a search, and none is counted.
pub fn field_length(l: &[u8], tabs: usize) -> usize
    ensures { result ≡ field_len tabs l.now }
{
    if tabs == 0 {
        return l.len();
    }
    let mut i = first_split(l, 0);
    while i < l.len() {
        if l[i] == TAB {
            return i;
        }
        i = first_split(l, i + 1);
    }
    i
}

// Is a value 0 where it may not be: in field 4 and in field 5.
fn zero_barred(place: u64, value: u64) -> bool
    ensures { result ≡ zero_barred place value }
{
    if value != 0 {
        return false;
    }
    if place == 4 {
        return true;
    }
    place == 5
}

// Reads a field that is a number. Refusals tell the line and the field's place in it.
fn whole_field(f: &[u8], line: u64, place: u64) -> Result<Field, Refusal>
    ensures { result ≡ field_says line place f.now }
{
    match decimal::read_number(f) {
        None => Err(Refusal::NotANumber { line, field: place }),
        Some(value) => {
            if zero_barred(place, value) {
                return Err(Refusal::ZeroField { line, field: place });
            }
            let plain = decimal::plain_number(f);
            Ok(Field {
                value,
                length: f.len(),
                plain,
            })
        }
    }
}

// Reads the number at the front of `rest`, which is what stands behind a tab, and where so many more tabs cut.
fn number_field(rest: &[u8], tabs: usize, line: u64, place: u64) -> Result<Field, Refusal>
    ensures { result ≡ field_says line place (take (field_len tabs rest.now) rest.now) }
{
    let length = field_length(rest, tabs);
    whole_field(&rest[..length], line, place)
}

// Reads as many numbers as the table has, one by one, and tells which is refused and why.
fn read_each(content: &[u8], name: usize, line: u64, numbers: &mut [u64]) -> Result<bool, Refusal>
    ensures { told result numbers.new ≡ numbers_from line 2 (length numbers.old) (behind (length numbers.old) (drop name content.now)) }
{
    let mut tab = name;
    let mut plain = true;
    for i in 0..numbers.len() {
        let place = i as u64 + 2;
        if content.len() <= tab {
            return Err(Refusal::FieldAbsent { line, field: place });
        }
        match number_field(&content[tab + 1..], numbers.len() - i - 1, line, place) {
            Err(r) => {
                return Err(r);
            }
            Ok(f) => {
                numbers[i] = f.value;
                plain = plain & f.plain;
                tab = tab + 1 + f.length;
            }
        }
    }
    Ok(plain)
}

// Some digits of a line: their value, and the place behind them.
#[derive(Clone, Copy)]
struct Digits {
    value: u64,
    end: usize,
}

// The digits at a place of a line, up to those that are no more than the largest number whatever follows. There are none where the first
// is a 0: most numbers begin with 1 to 9, and the others are read by `read_each`.
fn digits_at(content: &[u8], at: usize) -> Option<Digits>
    requires { at < length content.now }
    ensures { IfSome result (λ d. DigitsAt content.now at d.value d.end × (at < d.end)) }
{
    let first = u64::from(content[at]);
    if first <= decimal::ZERO {
        return None;
    }
    if decimal::NINE < first {
        return None;
    }
    let mut value = first - decimal::ZERO;
    for i in at + 1..content.len() {
        let b = u64::from(content[i]);
        if b < decimal::ZERO {
            return Some(Digits { value, end: i });
        }
        if decimal::NINE < b {
            return Some(Digits { value, end: i });
        }
        if decimal::ROOMY <= value {
            return Some(Digits { value, end: i });
        }
        value = value * 10 + (b - decimal::ZERO);
    }
    Some(Digits {
        value,
        end: content.len(),
    })
}

// Reads as many numbers as the table has, if all are as they are written, each with a tab before it, and tells the place behind the last; else
// the table holds any numbers. Each byte is looked at once: whether a number ended at a tab is seen where the next begins.
fn numbers_at(s: &[u8], place: usize, numbers: &mut [u64]) -> Option<usize>
    ensures { IfSome result (λ end. NumbersAt s.now place numbers.new end) }
{
    let last = s.len().checked_sub(1)?;
    let mut tab = place;
    for number in numbers.iter_mut() {
        if last <= tab {
            return None;
        }
        if s[tab] != TAB {
            return None;
        }
        let digits = digits_at(s, tab + 1)?;
        *number = digits.value;
        tab = digits.end;
    }
    Some(tab)
}

// Reads as many numbers as the table has, if all are as they are written and are all the rest; else the table holds any numbers.
fn read_quickly(content: &[u8], name: usize, numbers: &mut [u64]) -> bool
    ensures { result ≡ true → ReadAll content.now name numbers.new }
{
    match numbers_at(content, name, numbers) {
        None => false,
        Some(end) => end == content.len(),
    }
}

// A line as it is written: how many bytes its name has, and the place behind its LF.
#[derive(Clone, Copy)]
pub struct Standing {
    pub name: usize,
    pub end: usize,
}

// Reads the line that begins at a place of a text, in one walk and without a look for its end first: a name, as many numbers as the table has, and an
// LF, if they stand there as they are written and no number is 0. Else the table holds any numbers.
pub fn line_at(text: &[u8], at: usize, numbers: &mut [u64]) -> Option<Standing>
    ensures { IfSome result (λ line. LineAt text.now at line.name line.end numbers.new) }
{
    if text.len() <= at {
        return None;
    }
    let place = first_split(text, at);
    let end = numbers_at(text, place, numbers)?;
    if text.len() <= end {
        return None;
    }
    if text[end] != LF {
        return None;
    }
    Some(Standing {
        name: place - at,
        end: end + 1,
    })
}

// Reads as many numbers as the table has, each behind a tab; the first tab stands behind a name of `name` bytes, or there is the end.
pub fn read_numbers(
    content: &[u8],
    name: usize,
    line: u64,
    numbers: &mut [u64],
) -> Result<bool, Refusal>
    ensures { told result numbers.new ≡ numbers_from line 2 (length numbers.old) (behind (length numbers.old) (drop name content.now)) }
{
    if read_quickly(content, name, numbers) {
        return Ok(true);
    }
    read_each(content, name, line, numbers)
}

// Is it seen at a glance that N to 2 * N bytes have no tab and no LF: two blocks of N are all of them. The compiler looks at both at once.
fn whole_by_two<const N: usize>(name: &[u8]) -> bool
    requires { (N ≤ length name.now) × (length name.now ≤ 2 * N) }
    ensures { result ≡ true → first_where splits name.now ≡ length name.now }
{
    let front = split_in::<N>(name, 0);
    let back = split_in::<N>(name, name.len() - N);
    !(front | back)
}

// The same of more bytes, by blocks of 16, the last of which ends where they end.
fn whole_by_16(name: &[u8]) -> bool
    requires { 16 ≤ length name.now }
    ensures { result ≡ true → first_where splits name.now ≡ length name.now }
{
    let last = name.len() - 16;
    for i in (0..last).step_by(16) {
        if split_in::<16>(name, i) {
            return false;
        }
    }
    !split_in::<16>(name, last)
}

// Is it seen by blocks that a name has no tab and no LF. One of 3 bytes or fewer has no block.
fn whole_name(name: &[u8]) -> bool
    ensures { result ≡ true → first_where splits name.now ≡ length name.now }
{
    if name.len() < 8 {
        if name.len() < 4 {
            return false;
        }
        return whole_by_two::<4>(name);
    }
    if name.len() <= 16 {
        return whole_by_two::<8>(name);
    }
    whole_by_16(name)
}

// The place of the first tab or LF of a name; the length where there is none, as in nearly all names.
fn name_split(name: &[u8]) -> usize
    ensures { result ≡ first_where splits name.now }
{
    if whole_name(name) {
        return name.len();
    }
    first_split(name, 0)
}

// How many bytes a name and numbers are written with.
// A struct of name and numbers, with this bound, would be made and taken apart in one function.
fn text_length(name: &[u8], numbers: &[u64]) -> usize
    requires { length name.now + 21 * length numbers.now + 1 < 2 ^ 64 }
    ensures { result ≡ length (text_of name.now numbers.now) }
{
    let mut n = name.len() + 1;
    for &number in numbers {
        n += 1 + decimal::digit_count(number);
    }
    n
}

// Puts some bytes at the front of the output.
fn put_front(s: &[u8], out: &mut [u8])
    requires { length s.now ≤ length out.old }
    ensures { out.new ≡ overlaid out.old 0 s.now }
{
    copying::copy_run(s, 0, s.len(), out, 0);
}

// Puts numbers, each with a tab before it, from place `at` on, and tells the place behind them.
fn put_numbers(numbers: &[u64], out: &mut [u8], at: usize) -> usize
    requires { at + length (numbers_text numbers.now) ≤ length out.old }
    ensures { (result ≡ at + length (numbers_text numbers.now)) × (out.new ≡ overlaid out.old at (numbers_text numbers.now)) }
{
    let mut place = at;
    for &number in numbers {
        out[place] = TAB;
        place = decimal::put_number(number, out, place + 1);
    }
    place
}

// Puts a name and numbers with tabs between, and an LF, at the front of the output, and tells how many bytes they are.
fn put_text(name: &[u8], numbers: &[u64], out: &mut [u8]) -> usize
    requires { length (text_of name.now numbers.now) ≤ length out.old }
    ensures { (result ≡ length (text_of name.now numbers.now)) × (out.new ≡ overlaid out.old 0 (text_of name.now numbers.now)) }
{
    put_front(name, out);
    let end = put_numbers(numbers, out, name.len());
    out[end] = LF;
    end + 1
}

// How many bytes a name and numbers are written with, if there is no room for so many. Where there is room for the longest numbers, of
// 20 digits each, none is counted.
fn lacking(name: &[u8], numbers: &[u64], room: usize) -> Option<usize>
    requires { length name.now + 21 * length numbers.now + 1 < 2 ^ 64 }
    ensures { MatchOption result (length (text_of name.now numbers.now) ≤ room) (λ n. (room < n) × (n ≡ length (text_of name.now numbers.now))) }
{
    if name.len() + 21 * numbers.len() + 1 <= room {
        return None;
    }
    let needed = text_length(name, numbers);
    if room < needed {
        return Some(needed);
    }
    None
}

// Writes a name and numbers, if the name has no tab and no LF, and if there is room.
fn write_short(name: &[u8], numbers: &[u64], out: &mut [u8]) -> Result<usize, Refusal>
    requires { length name.now + 21 * length numbers.now + 1 < 2 ^ 64 }
    ensures { leaves result out.new ≡ text_written name.now numbers.now out.old }
{
    let place = name_split(name);
    if place < name.len() {
        return Err(Refusal::NameSplit {
            place: place as u64,
        });
    }
    if let Some(needed) = lacking(name, numbers, out.len()) {
        return Err(Refusal::NoRoom {
            needed: needed as u64,
        });
    }
    let written = put_text(name, numbers, out);
    Ok(written)
}

// The same for any name and numbers: those over the size limit are refused (1).
pub fn write_text(name: &[u8], numbers: &[u64], out: &mut [u8]) -> Result<usize, Refusal>
    ensures { leaves result out.new ≡ text_within name.now numbers.now out.old }
{
    if refusal::over_limit(name.len()) {
        return Err(Refusal::TooLong);
    }
    if refusal::over_limit(numbers.len()) {
        return Err(Refusal::TooLong);
    }
    write_short(name, numbers, out)
}
