// An exercise: a name, the first and last base asked for, and the edition of its rules, as tagged fields. A field is a tag, a length of two
// bytes, high byte first, and so many bytes. Each of the tags 1 to 4 stands once, in rising order; any other tag below 128 is passed over.
// Reading refuses 1; then, from the front, 32 for an unknown tag from 128 on, 31 for a malformed or missing field, and 33 for an unknown
// edition. Writing refuses 1; 31 for a name over 65,535 bytes; 33; and 14 for no room.
#![tactic(auto)]

ghost use Rattle.std.specs.Prelude.{◌≡◌, ◌≢◌, ◌+◌, ◌^◌, ◌≤◌, ◌<◌, length, MatchOption};
ghost use Rattle.copying.specs.Copied.{after_copy};
ghost use Rattle.exercise.specs.Numbers.{big_from};
ghost use Rattle.exercise.specs.Reading.{known_to, bad, name_field, start_field, end_field, edition_field, valued, judge, ended, says_from, read_as};
ghost use Rattle.exercise.specs.Writing.{name_head, number_field, edition_bytes, text_of, front, written_as};
ghost use Rattle.output.specs.Outcome.{leaves};

use refusal::Refusal;

// An exercise read from some bytes: where its name lies in them, its bounds, its edition.
#[derive(Clone, Copy)]
pub struct Exercise {
    pub name_start: usize,
    pub name_length: usize,
    pub start: u64,
    pub end: u64,
    pub edition: u64,
}

// What is kept of the fields so far: the tag that is wanted next, and what was read.
// The tag is a number, as in the format: the definitions `valued` and `ended` speak of it so.
#[derive(Clone, Copy)]
struct Kept {
    wanted: u64,
    name_start: usize,
    name_length: usize,
    start: u64,
    end: u64,
    edition: u64,
}

// The newest edition, and the first tag that a reader has to know.
const NEWEST: u64 = 2;

const FIRST_NEEDED: u8 = 128;

// Is an edition known.
fn known(edition: u64) -> bool
    ensures { result ≡ known_to 2 edition }
{
    edition != 0 && edition <= NEWEST
}

// The number of eight bytes, high byte first; none where there are not eight.
fn number_in(value: &[u8]) -> Option<u64>
    ensures { MatchOption result (length value.now ≢ 8) (λ n. (length value.now ≡ 8) × (n ≡ big_from 0 value.now)) }
{
    let bytes = value.as_array()?;
    Some(u64::from_be_bytes(*bytes))
}

fn malformed(at: usize) -> Result<(Kept, usize), Refusal>
    ensures { result ≡ bad at }
{
    Err(Refusal::MalformedExercise { offset: at as u64 })
}

// That `at + 3` can be counted is asked for by three functions: a type of such places would say no more than the bound.
fn name_field(value: &[u8], at: usize, kept: Kept) -> Result<(Kept, usize), Refusal>
    requires { at + 3 < 2 ^ 64 }
    ensures { result ≡ name_field kept at (length value.now) }
{
    if kept.wanted != 1 {
        return malformed(at);
    }
    Ok((
        Kept {
            wanted: 2,
            name_start: at + 3,
            name_length: value.len(),
            ..kept
        },
        value.len(),
    ))
}

fn start_field(value: &[u8], at: usize, kept: Kept) -> Result<(Kept, usize), Refusal>
    ensures { result ≡ start_field kept at (length value.now) value.now }
{
    if kept.wanted != 2 {
        return malformed(at);
    }
    let Some(start) = number_in(value) else {
        return malformed(at);
    };
    Ok((
        Kept {
            wanted: 3,
            start,
            ..kept
        },
        value.len(),
    ))
}

// What it shares with `start_field` is `number_in`; left are the tag that is wanted and the field that is set.
fn end_field(value: &[u8], at: usize, kept: Kept) -> Result<(Kept, usize), Refusal>
    ensures { result ≡ end_field kept at (length value.now) value.now }
{
    if kept.wanted != 3 {
        return malformed(at);
    }
    let Some(end) = number_in(value) else {
        return malformed(at);
    };
    Ok((
        Kept {
            wanted: 4,
            end,
            ..kept
        },
        value.len(),
    ))
}

fn edition_field(value: &[u8], at: usize, kept: Kept) -> Result<(Kept, usize), Refusal>
    ensures { result ≡ edition_field 2 kept at (length value.now) value.now }
{
    if kept.wanted != 4 || value.len() != 1 {
        return malformed(at);
    }
    let edition = u64::from(value[0]);
    if known(edition) {
        return Ok((
            Kept {
                wanted: 5,
                edition,
                ..kept
            },
            value.len(),
        ));
    }
    Err(Refusal::UnknownEdition { offset: at as u64 })
}

// A field whose bytes are all there.
fn value_field(tag: u8, value: &[u8], at: usize, kept: Kept) -> Result<(Kept, usize), Refusal>
    requires { at + 3 < 2 ^ 64 }
    ensures { result ≡ valued 2 kept at tag (length value.now) value.now }
{
    match tag {
        1 => name_field(value, at, kept),
        2 => start_field(value, at, kept),
        3 => end_field(value, at, kept),
        4 => edition_field(value, at, kept),
        _ => Ok((kept, value.len())),
    }
}

// The field of a tag at an offset, by the bytes behind the tag.
fn judge_field(tag: u8, behind: &[u8], at: usize, kept: Kept) -> Result<(Kept, usize), Refusal>
    requires { at + 3 < 2 ^ 64 }
    ensures { result ≡ judge 2 kept at tag behind.now }
{
    if FIRST_NEEDED <= tag {
        return Err(Refusal::UnknownNeededTag { offset: at as u64 });
    }
    let [high, low, value @ ..] = behind else {
        return malformed(at);
    };
    let n = usize::from(u16::from_be_bytes([*high, *low]));
    if value.len() < n {
        return malformed(at);
    }
    value_field(tag, &value[..n], at, kept)
}

// What is kept at the end.
fn end_of(kept: Kept, at: usize) -> Result<Exercise, Refusal>
    ensures { result ≡ ended kept at }
{
    if kept.wanted == 5 {
        return Ok(Exercise {
            name_start: kept.name_start,
            name_length: kept.name_length,
            start: kept.start,
            end: kept.end,
            edition: kept.edition,
        });
    }
    Err(Refusal::MalformedExercise { offset: at as u64 })
}

// The fields from the front, until one is refused.
fn read_fields(s: &[u8]) -> Result<Exercise, Refusal>
    requires { length s.now ≤ 1099511627776 }
    ensures { result ≡ says_from 2 s.now }
{
    let mut kept = Kept {
        wanted: 1,
        name_start: 0,
        name_length: 0,
        start: 0,
        end: 0,
        edition: 0,
    };
    let mut rest = s;
    while let [tag, behind @ ..] = rest {
        let at = s.len() - rest.len();
        let (h, length) = judge_field(*tag, behind, at, kept)?;
        kept = h;
        rest = &behind[2 + length..];
    }
    end_of(kept, s.len())
}

// Reads an exercise.
pub fn read_exercise(s: &[u8]) -> Result<Exercise, Refusal>
    ensures { result ≡ read_as 2 s.now }
{
    if refusal::over_limit(s.len()) {
        return Err(Refusal::TooLong);
    }
    read_fields(s)
}

// Puts a field of a number from a place on.
fn put_number(tag: u8, number: u64, out: &mut [u8], at: usize)
    ensures { out.new ≡ after_copy out.old at (number_field tag number) 11 }
{
    let [a, b, c, d, e, f, g, h] = number.to_be_bytes();
    let field = [tag, 0, 8, a, b, c, d, e, f, g, h];
    copying::copy_run(&field, 0, 11, out, at);
}

// Puts an exercise at the front of the output.
fn put_text(name: &[u8], start: u64, end: u64, edition: u8, out: &mut [u8])
    requires { (length name.now ≤ 65535) × (length name.now + 29 ≤ length out.old) }
    ensures { out.new ≡ front (text_of name.now start end edition) out.old }
{
    let n = name.len();
    let [high, low] = (n as u16).to_be_bytes();
    let head = [1, high, low];
    copying::copy_run(&head, 0, 3, out, 0);
    copying::copy_run(name, 0, n, out, 3);
    put_number(2, start, out, n + 3);
    put_number(3, end, out, n + 14);
    let last = [4, 0, 1, edition];
    copying::copy_run(&last, 0, 4, out, n + 25);
}

// Writes an exercise to the front of the output.
pub fn write_exercise(
    name: &[u8],
    start: u64,
    end: u64,
    edition: u64,
    out: &mut [u8],
) -> Result<usize, Refusal>
    ensures { leaves result out.new ≡ written_as 2 name.now start end edition out.old }
{
    if refusal::over_limit(name.len()) {
        return Err(Refusal::TooLong);
    }
    if 65535 < name.len() {
        return Err(Refusal::MalformedExercise { offset: 0 });
    }
    if known(edition) {
        let needed = name.len() + 29;
        if out.len() < needed {
            return Err(Refusal::NoRoom {
                needed: needed as u64,
            });
        }
        put_text(name, start, end, edition as u8, out);
        return Ok(needed);
    }
    Err(Refusal::UnknownEdition {
        offset: (name.len() + 25) as u64,
    })
}
