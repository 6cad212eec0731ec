// Checks an index of any program against its FASTA file: every line of the index has to describe its record, down to the place of
// every base. Refuses inputs over the size limit (1), a definition line that does not read (2 to 4), a record without a line (19), a
// line that does not read (9 to 12), another name (21), another length (22), a base that is not where the line says (23), and what is
// left of the index behind the last record (20). Refusals tell the record, from 1; 2 to 4 tell the offset too.
#![tactic(auto)]

pub(crate) mod quick;

ghost use Rattle.std.specs.Prelude.{◌≡◌, ◌+◌, ◌≤◌, ◌<◌, length};
ghost use Rattle.lines.specs.Lines.{seq_at};
ghost use Rattle.index_line.specs.IndexLine.{name_in};
ghost use Rattle.checker.specs.Check.{span_of, sequence_says, entry_says, against_lines, record_says, from_says, check_of};
ghost use Rattle.checker.specs.Steps.{group_of, only_line, behind_at, judged_as, step_of};
ghost use Rattle.checker.specs.Quick.{PastGood};

use lines::Span;
use record::Record;
use refusal::Refusal;

// The place behind some records: in the file and in the index, and how many they are.
#[derive(Clone, Copy)]
struct Place {
    fasta: usize,
    index: usize,
    records: u64,
}

// The sequence from `start` on against a record: 22, 23.
fn judge_sequence(fasta: &[u8], start: usize, x: Record, record: u64) -> Result<usize, Refusal>
    requires { 0 < x.line_bases }
    ensures { result ≡ judged_as (sequence_says «record» start (seq_at fasta.now start) x) (behind_at fasta.now start) }
{
    let found = walking::walk_sequence(fasta, start, x);
    if found.bases != x.length {
        return Err(Refusal::LengthDiffers { record });
    }
    match found.placed {
        None => Ok(found.next),
        Some((p, _)) => Err(Refusal::BaseElsewhere { record, base: p.0 }),
    }
}

// A record with a name against what its index line says: 21, then its sequence.
fn judge_entry(
    fasta: &[u8],
    start: usize,
    def: &[u8],
    name: Span,
    line: &[u8],
    x: Record,
    record: u64,
) -> Result<usize, Refusal>
    requires { (name.start + name.length ≤ length def.now) × (x.name_start + x.name_length ≤ length line.now) × (0 < x.line_bases) }
    ensures { result ≡ judged_as (entry_says «record» start (span_of def.now name) (seq_at fasta.now start) (name_in line.now x) x) (behind_at fasta.now start) }
{
    let from = x.name_start as usize;
    let n = x.name_length as usize;
    if comparing::same_spans(def, name.start, name.length, line, from, n) {
        return judge_sequence(fasta, start, x, record);
    }
    Err(Refusal::NameDiffers { record })
}

// A record with a name against its index line, which has no bytes where there is none: 19, 9 to 12, then what it says.
fn judge_named(
    fasta: &[u8],
    start: usize,
    def: &[u8],
    name: Span,
    line: &[u8],
    record: u64,
) -> Result<usize, Refusal>
    requires { name.start + name.length ≤ length def.now }
    ensures { result ≡ judged_as (against_lines «record» start (span_of def.now name) (seq_at fasta.now start) (only_line line.now)) (behind_at fasta.now start) }
{
    if line.is_empty() {
        return Err(Refusal::LineAbsent { record });
    }
    let e = index_line::parse_line(line, record)?;
    judge_entry(fasta, start, def, name, line, e.record, record)
}

// A record, which begins at `at` with its definition line, against its index line: 2 to 4, then the line.
fn judge_record(
    fasta: &[u8],
    at: usize,
    def: &[u8],
    line: &[u8],
    record: u64,
) -> Result<usize, Refusal>
    requires { at + length def.now ≤ length fasta.now }
    ensures { result ≡ judged_as (record_says «record» at (group_of def.now fasta.now (at + length def.now)) (only_line line.now)) (behind_at fasta.now (at + length def.now)) }
{
    match definition::parse_line(def) {
        Err(f) => Err(f.refusal(record, (at + f.place()) as u64)),
        Ok(d) => judge_named(fasta, at + def.len(), def, d.name, line, record),
    }
}

impl Place {
    // The place behind the records from this one on that are passed the fast way, up to the first that is not. Most records of most files are.
    fn past_good(self, fasta: &[u8], index: &[u8]) -> Place
        requires { (self.records ≤ self.fasta) × (self.index ≤ length index.now) }
        ensures { PastGood fasta.now index.now self result }
    {
        let mut w = self;
        while let Some(passed) = quick::passed_at(fasta, w.fasta, index, w.index) {
            w = Place {
                fasta: passed.fasta,
                index: passed.index,
                records: w.records + 1,
            };
        }
        w
    }

    // Checks the record at the place, and hands back the place behind it.
    fn check_record(self, fasta: &[u8], index: &[u8]) -> Result<Place, Refusal>
        requires { (self.records ≤ self.fasta) × (self.fasta < length fasta.now) × (self.index ≤ length index.now) }
        ensures { result ≡ step_of fasta.now index.now self }
    {
        let at = self.fasta;
        let start = lines::ends::line_end(fasta, at);
        let line = self.index;
        let behind = lines::ends::line_end(index, line);
        let record = self.records + 1;
        let next = judge_record(fasta, at, &fasta[at..start], &index[line..behind], record)?;
        Ok(Place {
            fasta: next,
            index: behind,
            records: record,
        })
    }
}

// The records from `at` on against the index lines from `line` on, as if no record came before.
fn check_places(fasta: &[u8], at: usize, index: &[u8], line: usize) -> Result<(), Refusal>
    requires { line ≤ length index.now }
    ensures { result ≡ from_says fasta.now at index.now line }
{
    let first = Place {
        fasta: at,
        index: line,
        records: 0,
    };
    let mut w = first.past_good(fasta, index);
    // no index is counted: each record tells where the next begins
    while w.fasta < fasta.len() {
        let next = w.check_record(fasta, index)?;
        w = next.past_good(fasta, index);
    }
    if w.index < index.len() {
        return Err(Refusal::BytesLeft { records: w.records });
    }
    Ok(())
}

// The same for every place, of a file and an index that are not too long: behind the end of the index there is no line.
pub fn check_from(fasta: &[u8], at: usize, index: &[u8], line: usize) -> Result<(), Refusal>
    ensures { result ≡ from_says fasta.now at index.now line }
{
    check_places(fasta, at, index, line.min(index.len()))
}

// Checks an index against its file.
#[tactic(auto, unfolding(crate::specs::Check::check_of, crate::specs::Check::from_says))]
pub fn check(fasta: &[u8], index: &[u8]) -> Result<(), Refusal>
    ensures { result ≡ check_of fasta.now index.now }
{
    if refusal::over_limit(fasta.len()) || refusal::over_limit(index.len()) {
        return Err(Refusal::TooLong);
    }
    check_places(fasta, 0, index, 0)
}
