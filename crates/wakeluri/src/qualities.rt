// Entry points on FASTQ: a file, or a part of one, indexed, an index of six columns read whole and checked against its file or a part of it, a line of it read and written, and
// bases or qualities read by row. A table is bytes, as it is elsewhere, with seven numbers to a row: the quality position is last.
ghost use Rattle.std.specs.Prelude.{◌≡◌};
ghost use Rattle.output.specs.Outcome.{leaves};
ghost use Rattle.table.specs.Numbers.{numbers_in};
ghost use Rattle.fastq_table.specs.Rows.{row_count};
ghost use Rattle.fastq_line.specs.SixColumns.{read_line};
ghost use Rattle.fastq_index.specs.File.{file_in};
ghost use Rattle.fastq_index.specs.Part.{part_in};
ghost use Rattle.fastq_index.specs.Text.{index_in};
ghost use Rattle.fastq_checker.specs.Check.{check_of};
ghost use Rattle.fastq_checker.specs.Part.{part_checked};
ghost use Rattle.wakeluri.specs.Answer.{bound_of, verdict_answer};
ghost use Rattle.wakeluri.specs.Told.{written_told};
ghost use Rattle.wakeluri.specs.Qualities.{part_given, no_row, fastq_told, fastq_answer, rows_told, stopped_at, part_told, passed_answer, line_from, part_read};

use crate::answer::Answer;
use crate::{answer, rows};
use fastq::{Part, QualityRow};
use fastq_checker::Stopped;
use fastq_line::Entry;
use record::Offset;
use refusal::{Numbers, Refusal};

// The row of an index line of six columns, and whether the line is plain.
#[repr(C)]
#[derive(Clone, Copy)]
pub struct FastqAnswer {
    pub refusal: u64,
    pub first: u64,
    pub second: u64,
    pub plain: u64,
    pub name_start: u64,
    pub name_length: u64,
    pub length: u64,
    pub position: u64,
    pub line_bases: u64,
    pub line_width: u64,
    pub quality_position: u64,
}

// No row.
fn no_row() -> QualityRow
    ensures { result ≡ no_row }
{
    QualityRow {
        record: answer::no_record(),
        qualities: Offset(0),
    }
}

// The struct, field by field.
fn fastq_told(n: Numbers, plain: u64, x: QualityRow) -> FastqAnswer
    ensures { result ≡ fastq_told n plain x }
{
    let y = x.record;
    FastqAnswer {
        refusal: n.refusal,
        first: n.first,
        second: n.second,
        plain,
        name_start: y.name_start,
        name_length: y.name_length,
        length: y.length,
        position: y.position.0,
        line_bases: y.line_bases,
        line_width: y.line_width,
        quality_position: x.qualities.0,
    }
}

// An index line's row, and whether the line is plain.
impl From<Result<Entry, Refusal>> for FastqAnswer {
    ghost from_gives = { λ r told. told ≡ fastq_answer r };

    #[tactic(auto, unfolding(crate::specs::Qualities::fastq_answer))]
    fn from(r: Result<Entry, Refusal>) -> FastqAnswer {
        match r {
            Ok(e) => {
                let x = e.row;
                fastq_told(answer::fine(), u64::from(e.plain), x)
            }
            Err(f) => fastq_told(Numbers::from(f), 0, no_row()),
        }
    }
}

// What of a record is read, as a host gives it: its bases for 0, else its qualities.
// No From: it would have to stand beside `Part`, in a crate that knows no number of a host.
fn part(qualities: u64) -> Part
    ensures { result ≡ part_given qualities }
{
    if qualities == 0 {
        return Part::Bases;
    }
    Part::Qualities
}

// A row for each record of a FASTQ file, from the table's first on.
pub fn wakeluri_fastq_index(file: &[u8], table: &mut [u8]) -> Answer
    ensures { leaves result table.new ≡ rows_told (file_in file.now (row_count (numbers_in table.old))) table.old }
{
    let filled = fastq_index::index_file(file, table);
    Answer::from(filled)
}

// An answer that also tells where a part stopped.
fn stopped(a: Answer, next: usize) -> Answer
    ensures { result ≡ stopped_at a next }
{
    Answer {
        refusal: a.refusal,
        first: a.first,
        second: a.second,
        count: a.count,
        next: next as u64,
    }
}

// A row for each record of a FASTQ file from `from` on, where one begins, that begins before `to`, from the table's first on; and the offset behind
// the last of them, so that the next part goes on from there.
pub fn wakeluri_fastq_index_part(file: &[u8], from: u64, to: u64, table: &mut [u8]) -> Answer
    ensures { leaves result table.new ≡ part_told file.now from (part_in file.now from to (row_count (numbers_in table.old))) table.old }
{
    let part = fastq_index::index_part(file, from as usize, to as usize, table);
    let filled = part.filled;
    stopped(Answer::from(filled), part.next)
}

// A row for each line of an index of six columns, from the table's first on.
pub fn wakeluri_fastq_read_index(index: &[u8], table: &mut [u8]) -> Answer
    ensures { leaves result table.new ≡ rows_told (index_in index.now (row_count (numbers_in table.old))) table.old }
{
    let filled = fastq_index::read_index(index, table);
    Answer::from(filled)
}

// What an index line of six columns says, given with its end.
pub fn wakeluri_fastq_read_line(line: &[u8]) -> FastqAnswer
    ensures { result ≡ fastq_answer (read_line line.now) }
{
    FastqAnswer::from(fastq_line::read_line(line))
}

// The index line of a row, of six columns and with its LF.
pub fn wakeluri_fastq_write_line(
    names: &[u8],
    table: &[u8],
    in_use: u64,
    row: u64,
    out: &mut [u8],
) -> Answer
    ensures { leaves result out.new ≡ written_told (line_from names.now (numbers_in table.now) in_use row out.old) }
{
    let used = fastq_table::row(table, in_use as usize, row as usize, Part::Bases);
    let qualities = fastq_table::qualities(table, row as usize);
    let written = fastq_line::write_line(names, used, qualities, out);
    Answer::from(written)
}

// Exactly the bases, or the qualities, of a region of a row's record.
pub fn wakeluri_fastq_read(
    file: &[u8],
    table: &[u8],
    in_use: u64,
    row: u64,
    has_start: u64,
    start: u64,
    has_end: u64,
    end: u64,
    qualities: u64,
    out: &mut [u8],
) -> Answer
    ensures { leaves result out.new ≡ written_told (part_read (part_given qualities) file.now (numbers_in table.now) in_use row (bound_of has_start start) (bound_of has_end end) out.old) }
{
    let a = rows::bound(has_start, start);
    let e = rows::bound(has_end, end);
    let used = fastq_table::row(table, in_use as usize, row as usize, part(qualities));
    let read = region::read_exact(file, used, a, e, out);
    Answer::from(read)
}

// Whether an index of six columns, of any program, leads to every base and to every quality of a FASTQ file.
pub fn wakeluri_fastq_check(fastq: &[u8], index: &[u8]) -> Answer
    ensures { result ≡ verdict_answer (check_of fastq.now index.now) }
{
    Answer::from(fastq_checker::check(fastq, index))
}

// Where a part of a check stopped: the place in the index as the count, and the offset in the file.
impl From<Result<Stopped, Refusal>> for Answer {
    ghost from_gives = { λ r told. told ≡ passed_answer r };

    #[tactic(auto, unfolding(crate::specs::Qualities::passed_answer))]
    fn from(r: Result<Stopped, Refusal>) -> Answer {
        match r {
            Ok(s) => answer::count_answer(answer::fine(), s.index, s.fastq),
            Err(f) => answer::count_answer(Numbers::from(f), 0, 0),
        }
    }
}

// How far the records of a FASTQ file from `from` on, where one begins, that begin before `to` are accepted with the index lines from `first` on.
pub fn wakeluri_fastq_check_part(
    fastq: &[u8],
    from: u64,
    to: u64,
    index: &[u8],
    first: u64,
) -> Answer
    ensures { result ≡ passed_answer (part_checked fastq.now from to index.now first) }
{
    Answer::from(fastq_checker::check_part(
        fastq,
        from as usize,
        to as usize,
        index,
        first as usize,
    ))
}
