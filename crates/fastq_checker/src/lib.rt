// Checks an index of any program against its FASTQ file: every line of the index has to describe its record, down to the place of every base
// and of every quality. Refuses inputs over the size limit (1); then what the indexer refuses anywhere in the file (2 to 7, 38, 39); then, record
// by record, a record without a line (19), a line that does not read (9 to 12), another name (21), another length (22), a base that is not where the
// line says (23), a quality that is not (23); and what is left of the index behind the last record (20). 19 to 23 tell the record, from 1.
#![tactic(auto)]

pub mod elsewhere;

ghost use Rattle.std.specs.Prelude.{◌≡◌, [], ◌+◌, ◌≤◌, ◌<◌, length, drop};
ghost use Rattle.lines.specs.Lines.{lines};
ghost use Rattle.index_line.specs.IndexLine.{name_in};
ghost use Rattle.fastq_line.specs.SixColumns.{six_line_says};
ghost use Rattle.checker.specs.Steps.{only_line};
ghost use Rattle.fastq_index.specs.File.{rows_at};
ghost use Rattle.fastq_checker.specs.Check.{entry_says, record_says, records_say, file_says, check_of};
ghost use Rattle.fastq_checker.specs.Taken.{Taken};
ghost use Rattle.fastq_checker.specs.Steps.{part_says_of, parts_say, stop_then, place_behind, judged_as, step_of};
ghost use Rattle.fastq_checker.specs.Part.{walked, part_checked};

use fastq::{Part, QualityRow};
use fastq_line::Entry;
use refusal::Refusal;

// The place behind some records: in the file and in the index, and how many they are.
#[derive(Clone, Copy)]
struct Place {
    fastq: usize,
    index: usize,
    records: u64,
}

// Where a part of a check stopped: in the file and in the index.
#[derive(Clone, Copy)]
pub struct Stopped {
    pub fastq: usize,
    pub index: usize,
}

// The place behind one record more; or that there is none; or what the indexer refuses there; or why the line is refused.
// No Result says it more plainly: there are two kinds of refusal, and the second waits for what the indexer says of the rest.
#[derive(Clone, Copy)]
enum Step {
    Next(Place),
    End,
    Stopped(Refusal),
    Refused(Refusal),
}

// One part of a record against that of its line's row: 23.
fn judge_part(x: QualityRow, y: QualityRow, part: Part, record: u64) -> Result<(), Refusal>
    ensures { result ≡ part_says_of «record» x y part }
{
    match elsewhere::first_apart(x.part(part), y.part(part)) {
        None => Ok(()),
        Some(p) => Err(Refusal::BaseElsewhere { record, base: p.0 }),
    }
}

// The bases of a record, then its qualities, against its line's row.
fn judge_parts(x: QualityRow, y: QualityRow, record: u64) -> Result<(), Refusal>
    ensures { result ≡ parts_say «record» x y }
{
    judge_part(x, y, Part::Bases, record)?;
    judge_part(x, y, Part::Qualities, record)
}

// A record against what its line says: 21, 22, then its parts.
fn judge_entry(
    fastq: &[u8],
    x: QualityRow,
    line: &[u8],
    y: QualityRow,
    record: u64,
) -> Result<(), Refusal>
    requires { Taken fastq.now x × (y.«record».name_start + y.«record».name_length ≤ length line.now) }
    ensures { result ≡ entry_says «record» fastq.now x (name_in line.now y.«record») y }
{
    let a = x.record;
    let b = y.record;
    let start = a.name_start as usize;
    let n = a.name_length as usize;
    let from = b.name_start as usize;
    let m = b.name_length as usize;
    if !comparing::same_spans(fastq, start, n, line, from, m) {
        return Err(Refusal::NameDiffers { record });
    }
    if a.length != b.length {
        return Err(Refusal::LengthDiffers { record });
    }
    judge_parts(x, y, record)
}

// A record against its index line, which has no bytes where there is none, and what was read of it: 19, 9 to 12, then what it says.
fn judge_record(
    fastq: &[u8],
    x: QualityRow,
    line: &[u8],
    read: Result<Entry, Refusal>,
    record: u64,
) -> Result<(), Refusal>
    requires { Taken fastq.now x × (read ≡ six_line_says «record» line.now) }
    ensures { result ≡ record_says «record» fastq.now x (only_line line.now) }
{
    if line.is_empty() {
        return Err(Refusal::LineAbsent { record });
    }
    let e = read?;
    judge_entry(fastq, x, line, e.row, record)
}

impl Place {
    // Checks the record at the place, which is `x` and ends at `behind`.
    fn check_row(self, fastq: &[u8], index: &[u8], x: QualityRow, behind: usize) -> Step
        requires { (self.records < length fastq.now) × (self.index ≤ length index.now) × Taken fastq.now x }
        ensures { result ≡ judged_as (record_says (self.records + 1) fastq.now x (lines (drop self.index index.now))) (place_behind index.now self behind) }
    {
        let line = self.index;
        let record = self.records + 1;
        let found = fastq_line::parse_at(index, line, record);
        match judge_record(fastq, x, &index[line..found.end], found.read, record) {
            Err(r) => Step::Refused(r),
            Ok(()) => Step::Next(Place {
                fastq: behind,
                index: found.end,
                records: record,
            }),
        }
    }

    // Checks the record at the place, if there is one, and hands back the place behind it.
    fn check_record(self, fastq: &[u8], index: &[u8]) -> Step
        requires { (self.records ≤ self.fastq) × (self.index ≤ length index.now) }
        ensures { result ≡ step_of fastq.now index.now self }
    {
        let step = fastq::index_at(fastq, self.fastq);
        match step.answer {
            Ok(Some(x)) => self.check_row(fastq, index, x, step.next),
            Ok(None) => Step::End,
            Err(r) => Step::Stopped(r),
        }
    }
}

// What the indexer refuses from `at` on.
fn judge_file(fastq: &[u8], at: usize) -> Result<(), Refusal>
    ensures { result ≡ stop_then (rows_at fastq.now at).stop (Ok tt) }
{
    // no index is counted: each step tells where the next record begins
    let mut i = at;
    loop {
        let step = fastq::index_at(fastq, i);
        match step.answer? {
            Some(_) => i = step.next,
            None => return Ok(()),
        }
    }
}

// What the indexer refuses from `at` on comes before a fault of the index.
fn judge_rest(fastq: &[u8], at: usize, fault: Refusal) -> Result<(), Refusal>
    ensures { result ≡ stop_then (rows_at fastq.now at).stop (Err fault) }
{
    judge_file(fastq, at)?;
    Err(fault)
}

// What is left of the index behind all records: 20.
fn judge_left(index: &[u8], at: usize, records: u64) -> Result<(), Refusal>
    requires { at ≤ length index.now }
    ensures { result ≡ records_say records [] [] (lines (drop at index.now)) }
{
    if at < index.len() {
        return Err(Refusal::BytesLeft { records });
    }
    Ok(())
}

// Every record of the file against the lines of the index, in one walk. Behind the first fault of the index only what the indexer refuses is of interest.
fn check_records(fastq: &[u8], index: &[u8]) -> Result<(), Refusal>
    ensures { result ≡ file_says fastq.now (lines index.now) (rows_at fastq.now 0).rows (rows_at fastq.now 0).stop }
{
    let mut w = Place {
        fastq: 0,
        index: 0,
        records: 0,
    };
    // no index is counted: each record tells the next place
    loop {
        match w.check_record(fastq, index) {
            Step::Next(next) => w = next,
            Step::End => return judge_left(index, w.index, w.records),
            Step::Stopped(r) => return Err(r),
            Step::Refused(r) => return judge_rest(fastq, w.fastq, r),
        }
    }
}

// Walks from a place over the records that begin before `to`, as far as each is accepted.
fn walk(fastq: &[u8], index: &[u8], place: Place, to: usize) -> Place
    requires { (place.records ≤ place.fastq) × (place.index ≤ length index.now) }
    ensures { result ≡ walked fastq.now index.now to place }
{
    let mut w = place;
    // no index is counted: each record tells the next place
    loop {
        if to <= w.fastq {
            return w;
        }
        match w.check_record(fastq, index) {
            Step::Next(next) => w = next,
            Step::End => return w,
            Step::Stopped(_) => return w,
            Step::Refused(_) => return w,
        }
    }
}

// Checks a part of a file: the records from `from` on, where one begins, that begin before `to`, against the index lines from `first` on, up to the
// first that is not accepted. Example: in `@a\nA\n+\n!\n@b\nC\n+\n!\n` records begin at 0 and 9. With the index that its indexer makes, of lines of
// 14 bytes, the part from 0 to 4 stops at 9 and at 14. A part never refuses a record: it stops before it.
pub fn check_part(
    fastq: &[u8],
    from: usize,
    to: usize,
    index: &[u8],
    first: usize,
) -> Result<Stopped, Refusal>
    ensures { result ≡ part_checked fastq.now from to index.now first }
{
    if refusal::over_limit(fastq.len()) {
        return Err(Refusal::TooLong);
    }
    if refusal::over_limit(index.len()) {
        return Err(Refusal::TooLong);
    }
    if index.len() < first {
        return Ok(Stopped {
            fastq: from,
            index: first,
        });
    }
    let start = Place {
        fastq: from,
        index: first,
        records: 0,
    };
    let w = walk(fastq, index, start, to);
    Ok(Stopped {
        fastq: w.fastq,
        index: w.index,
    })
}

// Checks an index against its file. What the indexer refuses comes first, wherever in the file it is.
pub fn check(fastq: &[u8], index: &[u8]) -> Result<(), Refusal>
    ensures { result ≡ check_of fastq.now index.now }
{
    if refusal::over_limit(fastq.len()) {
        return Err(Refusal::TooLong);
    }
    if refusal::over_limit(index.len()) {
        return Err(Refusal::TooLong);
    }
    check_records(fastq, index)
}
