// The complete indexer: a row for each record of a FASTA file for which any index line's numbers lead to every base, blank lines or not.
// The row's position is the first base's offset, its line bases are how many bases lie side by side from there, and its line width is how
// far the first base behind those is from the first of all. Refuses a file over the size limit (1), a bad definition line (2 to 4), a
// base that no numbers can lead to (42), and a table without a free row (8).
#![tactic(auto)]

pub mod bytes;
pub(crate) mod quick;

ghost use Rattle.std.specs.Prelude.{◌≡◌, ◌+◌, ◌-◌, ◌≤◌, ◌<◌, ⊤, length};
ghost use Rattle.lines.specs.Lines.{first_line, seq_at};
ghost use Rattle.table.specs.Rows.{row_count};
ghost use Rattle.table.specs.Fill.{FilledAs, NextOf};
ghost use Rattle.indexer.specs.Rule.{sequence_by, record_by};
ghost use Rattle.indexer.specs.Opened.{Opens, step_of};
ghost use Rattle.fitting.specs.Complete.{complete};
ghost use Rattle.fitting.specs.Rules.{step_by, rows_by, rows_in};
ghost use Rattle.fitting.specs.BlankLines.{PastBlank, NumbersAt};
ghost use Rattle.fitting.specs.EvenLaws.{EvenLinesAt};

use definition::Definition;
use indexer::{Found, Step};
use lines::Line;
use record::{Offset, Record};
use refusal::Refusal;
use table::kind::Source;
use table::{Filled, Records, kind};

// Position, line bases and line width.
#[derive(Clone, Copy)]
pub struct Numbers {
    pub position: usize,
    pub bases: usize,
    pub width: usize,
}

// A place of a sequence, and the line there; width and bases are 0 where there is none.
#[derive(Clone, Copy)]
struct LineAt {
    at: usize,
    line: Line,
}

// The first line from `at` on that has a base; where there is none, where the sequence ends.
fn past_blank_lines(s: &[u8], at: usize) -> LineAt
    requires { at ≤ length s.now }
    ensures { PastBlank s.now at result }
{
    let mut i = at;
    // no index is counted: a turn goes on behind its line
    loop {
        let line = lines::sequence_line(s, i);
        if line.bases != 0 || line.width == 0 {
            return LineAt { at: i, line };
        }
        i += line.width;
    }
}

// The fast way over the sequence from `at` on, whose first line is at hand: the lines like it are passed, one line that has no more bases
// may follow, and then blank lines.
fn even_lines(s: &[u8], at: usize, first: Line) -> Option<(usize, usize)>
    requires { (at ≤ length s.now) × (first ≡ first_line (seq_at s.now at)) }
    ensures { EvenLinesAt s.now at result }
{
    if first.bases == 0 {
        return None;
    }
    let next = at + first.width;
    if lines::sequence_ends(s, next) {
        return Some((first.bases, next));
    }
    let alike = lines::alike::lines_like(s, next, first);
    let i = next + alike * first.width;
    let n = first.bases + alike * first.bases;
    let last = lines::sequence_line(s, i);
    if first.bases < last.bases {
        return None;
    }
    let e = i + last.width;
    if lines::sequence_ends(s, e) {
        return Some((n + last.bases, e));
    }
    let behind = past_blank_lines(s, e);
    if behind.line.bases != 0 {
        return None;
    }
    Some((n + last.bases, behind.at))
}

// The numbers of the sequence from `at` on.
fn numbers_at(s: &[u8], at: usize) -> Numbers
    requires { at ≤ length s.now }
    ensures { NumbersAt s.now at result }
{
    let first = past_blank_lines(s, at);
    let line = first.line;
    if line.bases == 0 {
        return Numbers {
            position: at,
            bases: 1,
            width: 2,
        };
    }
    let next = past_blank_lines(s, first.at + line.width);
    let width = if next.line.bases == 0 {
        line.width
    } else {
        next.at - first.at
    };
    Numbers {
        position: first.at,
        bases: line.bases,
        width,
    }
}

// The record at `at`, whose definition line ends at `e` and says `d`, whatever its lines.
fn fit_lines(s: &[u8], at: usize, e: usize, d: Definition) -> Found
    requires { Opens s.now at e d }
    ensures { step_of at result ≡ sequence_by complete at (e - at) d (seq_at s.now e) }
{
    let n = numbers_at(s, e);
    let x = Record::unnamed(0, Offset(n.position as u64), n.bases as u64, n.width as u64);
    let found = walking::walk_sequence(s, n.position, x);
    if let Some((base, offset)) = found.placed {
        return Err(Refusal::NoIndexFits {
            offset: offset.0,
            base: base.0,
        });
    }
    let line = Line {
        width: n.width,
        bases: n.bases,
    };
    let row = indexer::row_for(at, d, found.bases as usize, n.position, line);
    Ok(Some((row, found.next)))
}

// What is found at `at`, by the complete rule. What it has in common with the ported one is `indexer::opened`.
fn fit_at(s: &[u8], at: usize) -> Found
    ensures { step_of at result ≡ record_by complete s.now at }
{
    let Some((e, d)) = indexer::opened(s, at)? else {
        return Ok(None);
    };
    fit_lines(s, at, e, d)
}

// The rule that a file is indexed by: the original's, or the complete one.
// A value, and no type: a host names the rule by a number, and a feeder keeps it from call to call.
#[derive(Clone, Copy)]
pub enum Rule {
    Strict,
    Complete,
}

// What is found at `at`, by a rule.
fn find(s: &[u8], at: usize, rule: Rule) -> Found
    ensures { step_of at result ≡ step_by rule s.now at }
{
    match rule {
        Rule::Strict => indexer::find(s, at),
        Rule::Complete => fit_at(s, at),
    }
}

// Indexes the record at `at` of a file that is not too long, by a rule.
pub fn index_at(s: &[u8], at: usize, rule: Rule) -> Step
    ensures { result ≡ step_by rule s.now at }
{
    Step::of(at, find(s, at, rule))
}

// The next row of the file from `at` on, by a rule, whatever the record there. It goes through `index_at`, and not to `find` at once: so what is promised of
// one record holds the code that indexes a file.
fn slow_row(s: &[u8], at: usize, rule: Rule) -> Found
    ensures { NextOf (rows_by rule s.now at) (rows_by rule s.now) at (length s.now) result }
{
    let step = index_at(s, at, rule);
    match step.answer? {
        Some(x) => Ok(Some((x, step.next.at))),
        None => Ok(None),
    }
}

// A rule finds the rows of a file, record by record.
impl Source<Records> for Rule {
    ghost rows = { λ rule s n at. rows_by rule s at };

    ghost reached = { λ rule s from n at. ⊤ };

    fn next(self, s: &[u8], at: usize, row: usize) -> Found {
        match quick::quick_at(s, at, self) {
            Some(row) => Ok(Some(row)),
            None => slow_row(s, at, self),
        }
    }

    ghost start = { λ rule s from. tt };
}

// Indexes a whole file by a rule into a lent table, from its first row on.
pub fn index_file(s: &[u8], table: &mut [u64], rule: Rule) -> Filled
    ensures { FilledAs (rows_in rule s.now (row_count table.old)) table.old table.new result }
{
    kind::fill::<Records, u64, Rule>(rule, s, 0, table).0
}
