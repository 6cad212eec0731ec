// An index line read, whatever its numbers are: FASTA's lines have four, FASTQ's five.
ghost use Rattle.std.specs.Prelude.{◌≡◌, ℕ, List, Bool, ◌&&◌, ◌<◌};
ghost use Rattle.index_line.specs.Columns.{content_says, line_says, SaidAt, read_alone};

use columns::fields;
use refusal::Refusal;

// What a line of `N` numbers says, each number with a tab before it.
pub trait Line<const N: usize>: Copy {
    ghost entry: { ℕ → List ℕ → Bool → Self };

    ghost only: { Bool → Self → Self };

    // What a name of so many bytes, at the front of its line, and a line's numbers say; and whether the line is plain.
    fn of(name: usize, numbers: &[u64; N], plain: bool) -> Self
        ensures { result ≡ entry name numbers.now plain };

    // The same, plain only if p.
    fn plain_if(self, p: bool) -> Self
        ensures { result ≡ only p self };

    // A line has some numbers, and not many.
    ghost some: { 0 < N };

    ghost few: { N < 100 };

    ghost both: { (p q : Bool) (k : ℕ) (vs : List ℕ) → only p (entry k vs q) ≡ entry k vs (p && q) };
}

// A line read where it stands in a text, and the place behind it.
#[derive(Clone, Copy)]
pub struct ReadAt<E> {
    pub read: Result<E, Refusal>,
    pub end: usize,
}

// Reads the content of line number `line`, which has no end. Of content, plain means that no number has a needless leading zero or a plus.
pub fn parse_record<const N: usize, E: Line<N>>(content: &[u8], line: u64) -> Result<E, Refusal>
    ensures { result ≡ content_says E.entry N line content.now }
{
    if content.len() == 0 {
        return Err(Refusal::EmptyIndexLine { line });
    }
    let name = fields::field_length(content, N);
    let mut numbers = [0; N];
    let plain = fields::read_numbers(content, name, line, &mut numbers)?;
    Ok(E::of(name, &numbers, plain))
}

// Reads line number `line` with its end: one final LF, and one CR before it, come off. It does not look for an LF before that: a line
// of a text has none.
pub fn parse_line<const N: usize, E: Line<N>>(l: &[u8], line: u64) -> Result<E, Refusal>
    ensures { result ≡ line_says E.entry E.only N line l.now }
{
    let length = lines::content_length(l);
    let ended = l.len() - length == 1;
    let e = parse_record::<N, E>(&l[..length], line)?;
    Ok(e.plain_if(ended))
}

// Reads the line that begins at a place of a text, by its end, which is looked for first.
fn parse_by_end<const N: usize, E: Line<N>>(text: &[u8], at: usize, line: u64) -> ReadAt<E>
    ensures { SaidAt (line_says E.entry E.only N) line text.now at result.read result.end }
{
    if text.len() <= at {
        return ReadAt {
            read: Err(Refusal::EmptyIndexLine { line }),
            end: at,
        };
    }
    let end = lines::ends::line_end(text, at);
    let read = parse_line::<N, E>(&text[at..end], line);
    ReadAt { read, end }
}

// Reads the line that begins at a place of a text, and tells where it ends; at or past the end of the text there is an empty line. Most lines are
// as they are written, and are read in one walk.
pub fn parse_at<const N: usize, E: Line<N>>(text: &[u8], at: usize, line: u64) -> ReadAt<E>
    ensures { SaidAt (line_says E.entry E.only N) line text.now at result.read result.end }
{
    let mut numbers = [0; N];
    let Some(found) = fields::line_at(text, at, &mut numbers) else {
        return parse_by_end::<N, E>(text, at, line);
    };
    ReadAt {
        read: Ok(E::of(found.name, &numbers, true)),
        end: found.end,
    }
}

// Reads a line, with its end, that stands alone. An LF before its end is a byte like others, but then it is not plain: it is no line.
pub fn read_line<const N: usize, E: Line<N>>(l: &[u8]) -> Result<E, Refusal>
    ensures { result ≡ read_alone E.entry E.only N l.now }
{
    if refusal::over_limit(l.len()) {
        return Err(Refusal::TooLong);
    }
    let one = lines::ends::line_end(l, 0) == l.len();
    let e = parse_line::<N, E>(l, 1)?;
    Ok(e.plain_if(one))
}
