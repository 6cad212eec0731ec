// A FASTQ file, or a part of one, indexed into a lent table, seven numbers to a row, and an index of six columns read into one. Refuses bytes over the size limit
// (1), a record that is refused (2 to 7, 38, 39) or a bad line (9 to 12, lines counted from 1), and a table without a free row (8).
#![tactic(auto)]

ghost use Rattle.std.specs.Prelude.{◌≡◌, ◌+◌, ◌≤◌, ◌<◌, ⊤, length};
ghost use Rattle.table.specs.Numbers.{numbers_in};
ghost use Rattle.fastq_table.specs.Rows.{row_count};
ghost use Rattle.fastq_table.specs.Fill.{FilledBytes};
ghost use Rattle.fastq_index.specs.File.{file_in};
ghost use Rattle.fastq_index.specs.Part.{rows_before, behind, part_in, next_before, PartBytes};
ghost use Rattle.fastq_index.specs.PartLaws.{behind-none};
ghost use Rattle.fastq_index.specs.Text.{row_at, index_at, index_in};

use fastq::QualityRow;
use fastq_table::QualityRows;
use lines::Cursor;
use refusal::Refusal;
use table::kind::Source;
use table::{Filled, kind};

// The rows of a part that a table holds, and why there are no more; and the offset behind the last of them, where the first record begins that has
// no row there.
#[derive(Clone, Copy)]
pub struct PartFilled {
    pub filled: Filled,
    pub next: usize,
}

// The next row from `at` on, of a part that goes up to `to`.
fn next_row(s: &[u8], to: usize, at: usize) -> Result<Option<(QualityRow, usize)>, Refusal>
    ensures { result ≡ next_before s.now to at }
{
    if to <= at {
        return Ok(None);
    }
    let step = fastq::index_at(s, at);
    match step.answer? {
        Some(x) => Ok(Some((x, step.next))),
        None => Ok(None),
    }
}

// The records of a part of a file that goes up to `to`, each a row.
#[derive(Clone, Copy)]
struct Records {
    to: usize,
}

impl Source<QualityRows> for Records {
    ghost rows = { λ part s n at. rows_before s part.to at };

    ghost reached = { λ part s from n at. at ≡ behind s n from };

    fn next(self, s: &[u8], at: usize, row: usize) -> Result<Option<(QualityRow, usize)>, Refusal> {
        next_row(s, self.to, at)
    }

    ghost start = { λ part s from. behind-none s from };
}

// Indexes a part of a file into a lent table, from its first row on: the records from `from` on, where one begins, that begin before `to`. Example: in
// `@a\nA\n+\n!\n@b\nC\n+\n!\n` records begin at 0 and 9; the part from 0 to 4 has the first, and stops at 9.
pub fn index_part(file: &[u8], from: usize, to: usize, table: &mut [u8]) -> PartFilled
    ensures { PartBytes file.now from (part_in file.now from to (row_count (numbers_in table.old))) table.old table.new result }
{
    let (filled, next) = kind::fill::<QualityRows, u8, Records>(Records { to }, file, from, table);
    PartFilled { filled, next }
}

// Indexes a whole file into a lent table, from its first row on.
pub fn index_file(s: &[u8], table: &mut [u8]) -> Filled
    ensures { FilledBytes (file_in s.now (row_count (numbers_in table.old))) table.old table.new result }
{
    let part = Records { to: s.len() };
    kind::fill::<QualityRows, u8, Records>(part, s, 0, table).0
}

// Reads the index line at `at`, whose number is `line`; the row's name is a span of the whole text.
// It and `Lines` stand beside those of `index`: one over both is no plainer, as the placing of a row's name, in which they differ, is most of it.
pub fn read_row(text: &[u8], at: Cursor, line: u64) -> Result<Option<(QualityRow, Cursor)>, Refusal>
    ensures { result ≡ row_at text.now line at.at }
{
    let a = at.at;
    if text.len() <= a {
        return Ok(None);
    }
    let found = fastq_line::parse_at(text, a, line);
    let x = found.read?;
    let r = x.row.record;
    let row = QualityRow {
        record: r.named(a as u64, r.name_length),
        ..x.row
    };
    Ok(Some((row, Cursor { at: found.end })))
}

// The lines of an index, each a row; the line of row `row` is number `row` + 1.
#[derive(Clone, Copy)]
struct Lines;

impl Source<QualityRows> for Lines {
    ghost rows = { λ s text n at. index_at text (n + 1) at };

    ghost reached = { λ s text from n at. ⊤ };

    fn next(
        self,
        text: &[u8],
        at: usize,
        row: usize,
    ) -> Result<Option<(QualityRow, usize)>, Refusal> {
        match read_row(text, Cursor { at }, row as u64 + 1)? {
            Some((x, next)) => Ok(Some((x, next.at))),
            None => Ok(None),
        }
    }

    ghost start = { λ s text from. tt };
}

// Reads a whole index into a lent table, from its first row on; names are spans of the index.
pub fn read_index(text: &[u8], table: &mut [u8]) -> Filled
    ensures { FilledBytes (index_in text.now (row_count (numbers_in table.old))) table.old table.new result }
{
    kind::fill::<QualityRows, u8, Lines>(Lines, text, 0, table).0
}
