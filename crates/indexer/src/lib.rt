// The ported indexer: the row of one record of a FASTA file. A record is a definition line and the lines of its sequence. These all have
// the first line's bases and width, except the last, which may have less. Refuses a file over the size limit (1), a bad definition line
// (2 to 4), no bases in the first line (5), and a line of other bases (6) or width (7). The loop over a file is `table::kind::fill_rows`.
#![tactic(auto)]

pub mod quick;

ghost use Rattle.std.specs.Prelude.{◌≡◌, ◌+◌, ◌-◌, ◌^◌, ◌≤◌, ◌<◌, length};
ghost use Rattle.lines.specs.Lines.{seq_at};
ghost use Rattle.indexer.specs.Rule.{row_for};
ghost use Rattle.indexer.specs.Opened.{Opens, OpenedAt, step_of};
ghost use Rattle.indexer.specs.Index.{fits_last, rest_says, sequence_says, record_at, record_read};

use definition::Definition;
use lines::Line;
use record::{Offset, Record};
use refusal::Refusal;

// A place in a file: the record that begins there is indexed.
#[derive(Clone, Copy)]
pub struct Indexer {
    pub at: usize,
}

// The answer of a step, and where it stops: behind the record, or where it was.
#[derive(Clone, Copy)]
pub struct Step {
    pub answer: Result<Option<Record>, Refusal>,
    pub next: Indexer,
}

// What is found at a place of a file: a record's row, with the place behind the record; no record; or a refusal.
pub type Found = Result<Option<(Record, usize)>, Refusal>;

// A good sequence: its first line, how many bases all its lines have, and where it ends.
#[derive(Clone, Copy)]
pub struct Good {
    pub first: Line,
    pub bases: usize,
    pub next: usize,
}

// May a line be a record's last: no line follows, and neither width nor bases exceed the first line's.
#[tactic(auto, unfolding(crate::specs::Index::fits_last))]
pub fn fits(last: bool, l: Line, first: Line) -> bool
    ensures { result ≡ fits_last last l first }
{
    last && l.width <= first.width && l.bases <= first.bases
}

// The row of a record at `at`, whose definition line says `d`: so many bases, in lines like `line`, from `position` on. Its name and its description
// begin at offsets that fit, in every file.
pub fn row_for(at: usize, d: Definition, bases: usize, position: usize, line: Line) -> Record
    ensures { (at + d.name.start < 2 ^ 64) × (at + d.description.start < 2 ^ 64) → result ≡ row_for at d bases position line.bases line.width }
{
    Record::unnamed(
        bases as u64,
        Offset(position as u64),
        line.bases as u64,
        line.width as u64,
    )
    .named(at.wrapping_add(d.name.start) as u64, d.name.length as u64)
    .described(
        at.wrapping_add(d.description.start) as u64,
        d.description.length as u64,
    )
}

// The lines from `at` on, which come after a record's first. It passes those like the first, and the one behind them decides. Inlined, it hands the
// fast way numbers and no refusal.
#[inline(always)]
fn index_rest(s: &[u8], at: usize, first: Line) -> Result<(usize, usize), Refusal>
    requires { (at ≤ length s.now) × (0 < first.bases) × (first.bases ≤ first.width) × (first.width ≤ at) }
    ensures { result ≡ rest_says first first.bases at (seq_at s.now at) }
{
    let alike = lines::alike::lines_like(s, at, first);
    let i = at + alike * first.width;
    let n = first.bases + alike * first.bases;
    let l = lines::sequence_line(s, i);
    let next = i + l.width;
    if fits(lines::sequence_ends(s, next), l, first) {
        return Ok((n + l.bases, next));
    }
    if l.bases != first.bases {
        return Err(Refusal::LineBases {
            found: l.bases as u64,
            expected: first.bases as u64,
        });
    }
    Err(Refusal::LineWidth {
        found: l.width as u64,
        expected: first.width as u64,
    })
}

// The record at `at`, whose definition line ends at `e` and says `d`.
fn index_sequence(s: &[u8], at: usize, e: usize, d: Definition) -> Found
    requires { Opens s.now at e d }
    ensures { step_of at result ≡ sequence_says at (e - at) d (seq_at s.now e) }
{
    let first = lines::sequence_line(s, e);
    let next = e + first.width;
    if first.bases == 0 {
        let offset = next as u64;
        return Err(Refusal::NoBases { offset });
    }
    let (bases, behind) = index_rest(s, next, first)?;
    Ok(Some((row_for(at, d, bases, e, first), behind)))
}

// The definition line at `at`: where it ends, and what it says. There is none at the end of the file. Inlined, what it says stays at hand.
#[inline(always)]
pub fn opened(s: &[u8], at: usize) -> Result<Option<(usize, Definition)>, Refusal>
    ensures { OpenedAt s.now at result }
{
    if s.len() <= at {
        return Ok(None);
    }
    let e = lines::ends::line_end(s, at);
    match definition::parse_line(&s[at..e]) {
        Ok(d) => Ok(Some((e, d))),
        Err(f) => Err(f.refusal((at + f.place()) as u64, 0)),
    }
}

// What is found at `at`, by the ported rule.
pub fn find(s: &[u8], at: usize) -> Found
    ensures { step_of at result ≡ record_at s.now at }
{
    let Some((e, d)) = opened(s, at)? else {
        return Ok(None);
    };
    index_sequence(s, at, e, d)
}

// Indexes the record at `at` of a file that is not too long.
pub fn index_at(s: &[u8], at: usize) -> Step
    ensures { result ≡ record_at s.now at }
{
    Step::of(at, find(s, at))
}

impl Step {
    // The step to what is found at `at`: without a row the place stays.
    pub fn of(at: usize, found: Found) -> Self
        ensures { result ≡ step_of at found }
    {
        match found {
            Ok(Some((x, behind))) => Step {
                answer: Ok(Some(x)),
                next: Indexer { at: behind },
            },
            Ok(None) => Step {
                answer: Ok(None),
                next: Indexer { at },
            },
            Err(x) => Step {
                answer: Err(x),
                next: Indexer { at },
            },
        }
    }
}

impl Indexer {
    // The start of a file.
    pub fn start() -> Self
        ensures { result ≡ record { at = 0 } }
    {
        Indexer { at: 0 }
    }

    // Indexes the record at this place.
    pub fn index_record(self, s: &[u8]) -> Step
        ensures { result ≡ record_read s.now self }
    {
        if refusal::over_limit(s.len()) {
            return Step::of(self.at, Err(Refusal::TooLong));
        }
        index_at(s, self.at)
    }
}
