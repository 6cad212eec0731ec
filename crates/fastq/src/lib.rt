// FASTQ: the row of one record of a file. A record is a definition line, which begins with '@'; sequence lines, up to a line that begins
// with '+'; that line, whose text is not judged; and as many quality lines as sequence lines, which may begin with any byte. Refuses a
// bad definition line (2 to 4), no bases in the first line (5), a line of other bases (6) or width (7) or a blank one (6), no '+' line
// (38), and a quality line that is not like its partner (39).
#![tactic(auto)]

ghost use Rattle.std.specs.Prelude.{◌≡◌, ◌+◌, ◌-◌, ◌≤◌, ◌<◌, length, take};
ghost use Rattle.lines.specs.Lines.{line_end, none, first_line};
ghost use Rattle.lines.specs.Alike.{alike};
ghost use Rattle.lines.specs.UpTo.{up_to_at};
ghost use Rattle.fastq.specs.Fastq.{lines_at, body_at, line_says, fits_partner, sequence_says, record_at};
ghost use Rattle.fastq.specs.Parts.{part_of};
ghost use Rattle.fastq.specs.RecordLaws.{GoodBody};
ghost use Rattle.fastq.specs.Steps.{LikeFirst, rest_says, partners_of, partner_of, qualities_say, step_of};

use lines::{Line, Span};
use record::{Offset, Record};
use refusal::Refusal;

// A record of a FASTQ file: that of its bases, and where its qualities begin.
#[derive(Clone, Copy)]
pub struct QualityRow {
    pub record: Record,
    pub qualities: Offset,
}

// What of a record is read.
// A value, and no type: a host names it by a number in the call.
#[derive(Clone, Copy)]
pub enum Part {
    Bases,
    Qualities,
}

// The answer of a step, and the place it leaves: behind the record, or where it was. It is no `indexer::Step` of another row: that has a cursor for its place.
#[derive(Clone, Copy)]
pub struct Step {
    pub answer: Result<Option<QualityRow>, Refusal>,
    pub next: usize,
}

// The sequence lines of a record: the first, the last, how many they are, all their bases, and the offset behind them.
#[derive(Clone, Copy)]
struct Body {
    first: Line,
    last: Line,
    count: usize,
    bases: usize,
    next: usize,
}

// The line at `at`, a long one mostly; 0 and 0 where there is none.
// No Option, as in `lines::sequence_line`: so says `first_line`.
fn line_at(s: &[u8], at: usize) -> Line
    ensures { result ≡ first_line (lines_at s.now at) }
{
    if s.len() <= at {
        return Line { width: 0, bases: 0 };
    }
    let e = lines::ends::line_end_far(s, at);
    let bases = lines::base_count(&s[at..e]);
    Line {
        width: e - at,
        bases,
    }
}

// Is there no sequence line at `at`: the end of the file, or a '+'.
// It is `lines::sequence_ends` with another mark: as a parameter the mark would stand in every definition of a line.
fn body_ends(s: &[u8], at: usize) -> bool
    ensures { result ≡ none (body_at s.now at) }
{
    s.len() <= at || s[at] == b'+'
}

// Judges a sequence line behind the first.
fn judge_line(first: Line, last: bool, l: Line) -> Result<(), Refusal>
    ensures { result ≡ line_says first last l }
{
    if l.bases == 0 {
        return Err(Refusal::LineBases {
            found: 0,
            expected: first.bases as u64,
        });
    }
    if indexer::fits(last, l, first) {
        return Ok(());
    }
    if l.bases != first.bases {
        return Err(Refusal::LineBases {
            found: l.bases as u64,
            expected: first.bases as u64,
        });
    }
    if l.width != first.width {
        return Err(Refusal::LineWidth {
            found: l.width as u64,
            expected: first.width as u64,
        });
    }
    Ok(())
}

// How many sequence lines from `at` on, which come after a record's first, are like it. A read of four lines has none, and its '+' says so.
fn lines_like_first(s: &[u8], at: usize, first: Line) -> usize
    ensures { result ≡ alike first (take (length s.now) (up_to_at s.now 43 at)) }
{
    if body_ends(s, at) {
        return 0;
    }
    lines::alike::lines_like_up_to(s, at, first, b'+', s.len())
}

// The sequence lines from `at` on, which come after a record's first: those like the first are passed at once, and those behind them are
// judged one by one.
fn index_rest(s: &[u8], at: usize, first: Line) -> Result<Body, Refusal>
    requires { (at ≤ length s.now) × (0 < first.bases) × (first.bases ≤ first.width) × (first.width ≤ at) }
    ensures { result ≡ rest_says first 1 first.bases first at (body_at s.now at) }
{
    let passed = lines_like_first(s, at, first);
    let mut body = Body {
        first,
        last: first,
        count: 1 + passed,
        bases: first.bases + passed * first.bases,
        next: at + passed * first.width,
    };
    // no index is counted: a turn goes on behind its line
    while !body_ends(s, body.next) {
        let last = line_at(s, body.next);
        let next = body.next + last.width;
        judge_line(first, body_ends(s, next), last)?;
        body = Body {
            first,
            last,
            count: body.count + 1,
            bases: body.bases + last.bases,
            next,
        };
    }
    Ok(body)
}

// Does a quality line fit its partner.
fn fits_partner(p: Line, q: &[u8]) -> bool
    ensures { result ≡ fits_partner p q.now }
{
    lines::base_count(q) == p.bases && (q.len() == p.width || lines::content_length(q) == q.len())
}

impl Body {
    // The partner of the next quality line, where so many are left.
    fn partner(self, left: usize) -> Line
        ensures { result ≡ partner_of left self.first self.last }
    {
        if left == 1 { self.last } else { self.first }
    }

    // How many partners are known to be like the first: all, or all but the last.
    fn partners_like_first(self) -> usize
        ensures { LikeFirst self.count self.first self.last result }
    {
        if self.last.width == self.first.width && self.last.bases == self.first.bases {
            return self.count;
        }
        self.count.saturating_sub(1)
    }
}

// The quality lines from `at` on, a partner for each line of the body: those like the first partner are passed at once, and those behind them
// are judged one by one. A line that has a base does not begin with LF, so that as a mark it bars none.
fn judge_qualities(s: &[u8], at: usize, body: Body) -> Result<usize, Refusal>
    requires { at ≤ length s.now }
    ensures { result ≡ qualities_say at (partners_of body.count body.first body.last) (lines_at s.now at) }
{
    let most = body.partners_like_first();
    let passed = lines::alike::lines_like_up_to(s, at, body.first, b'\n', most);
    let mut i = at + passed * body.first.width;
    for k in passed..body.count {
        let p = body.partner(body.count - k);
        let expected = p.bases as u64;
        if s.len() <= i {
            return Err(Refusal::QualityLine { found: 0, expected });
        }
        let e = lines::ends::line_end(s, i);
        let line = &s[i..e];
        if !fits_partner(p, line) {
            let found = lines::base_count(line) as u64;
            return Err(Refusal::QualityLine { found, expected });
        }
        i = e;
    }
    Ok(i)
}

// The end of the line at `at`, where a '+' line is to be: mostly it is a '+' and an LF.
fn plus_end(s: &[u8], at: usize) -> usize
    requires { at ≤ length s.now }
    ensures { result ≡ line_end s.now at }
{
    if 2 <= s.len() - at && s[at] == b'+' && s[at + 1] == b'\n' {
        return at + 2;
    }
    lines::ends::line_end(s, at)
}

// The row of the record at `at`, whose sequence lines are good, and whose name has this place in its definition line, which ends at `e`; and the
// offset behind it.
fn index_qualities(
    s: &[u8],
    at: usize,
    e: usize,
    name: Span,
    body: Body,
) -> Result<(QualityRow, usize), Refusal>
    requires { GoodBody s.now at e name body }
    ensures { step_of at result ≡ sequence_says at (e - at) name (lines_at s.now e) }
{
    if s.len() <= body.next {
        return Err(Refusal::NoPlusLine);
    }
    let q = plus_end(s, body.next);
    let behind = judge_qualities(s, q, body)?;
    let record = Record::unnamed(
        body.bases as u64,
        Offset(e as u64),
        body.first.bases as u64,
        body.first.width as u64,
    )
    .named((at + name.start) as u64, name.length as u64);
    let qualities = Offset(q as u64);
    Ok((QualityRow { record, qualities }, behind))
}

// The row of the record at `at`, whose name has this place in its definition line, which ends at `e`; and the offset behind it.
fn index_sequence(s: &[u8], at: usize, e: usize, name: Span) -> Result<(QualityRow, usize), Refusal>
    requires { (at < e) × (e ≤ length s.now) × (name.start ≤ e - at) }
    ensures { step_of at result ≡ sequence_says at (e - at) name (lines_at s.now e) }
{
    if body_ends(s, e) {
        return Err(Refusal::NoBases { offset: e as u64 });
    }
    let first = line_at(s, e);
    let next = e + first.width;
    if first.bases == 0 {
        let offset = next as u64;
        return Err(Refusal::NoBases { offset });
    }
    let body = index_rest(s, next, first)?;
    index_qualities(s, at, e, name, body)
}

// Indexes the record at `at` of a file that is not too long.
pub fn index_at(s: &[u8], at: usize) -> Step
    ensures { result ≡ record_at s.now at }
{
    if s.len() <= at {
        return Step {
            answer: Ok(None),
            next: at,
        };
    }
    let e = lines::ends::line_end(s, at);
    match definition::parse_marked(&s[at..e], b'@') {
        Ok(d) => Step::of(at, index_sequence(s, at, e, d.name)),
        Err(f) => Step::of(at, Err(f.refusal((at + f.place()) as u64, 0))),
    }
}

impl Step {
    // What the record at `at` gives: its row, and the place behind it; or a refusal, which leaves the place where it was.
    fn of(at: usize, found: Result<(QualityRow, usize), Refusal>) -> Self
        ensures { result ≡ step_of at found }
    {
        match found {
            Ok((row, next)) => Step {
                answer: Ok(Some(row)),
                next,
            },
            Err(x) => Step {
                answer: Err(x),
                next: at,
            },
        }
    }
}

impl QualityRow {
    // The record of one part: the addressing rule leads to its bases, or to its qualities.
    #[tactic(auto, unfolding(crate::specs::Parts::part_of))]
    pub fn part(self, part: Part) -> Record
        ensures { result ≡ part_of part self }
    {
        match part {
            Part::Bases => self.record,
            Part::Qualities => Record {
                position: self.qualities,
                ..self.record
            },
        }
    }
}
