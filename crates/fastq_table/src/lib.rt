// The rows of a FASTQ file in a table that is lent as bytes, eight to a number, low byte first: seven numbers to a row, the quality position
// last. What is left of a last part of a row is ignored and stays. A row is read as a row in use, of its bases or of its qualities, and then
// judged as the crate `table` does (25). A good record that finds no free row is refused (8).
#![tactic(auto)]

ghost use Rattle.std.specs.Prelude.{◌≡◌, refl};
ghost use Rattle.table.specs.Numbers.{numbers_in};
ghost use Rattle.fastq_table.specs.Rows.{row_words, numbers_at, quality_rows, row_count, used_at, qualities_at};
ghost use Rattle.fastq_table.specs.Fill.{StoredIn, KeptIn};

use fastq::{Part, QualityRow};
use record::{Offset, Record};
use refusal::Refusal;
use table::kind;
use table::kind::{Cell, RowKind};

// The numbers of a row.
pub const WORDS: usize = 7;

// The rows of FASTQ: the numbers of an index line with the name's span in front, the quality position last. There is no description.
pub struct QualityRows;

impl RowKind for QualityRows {
    type Row = QualityRow;

    ghost kind = { quality_rows };

    ghost numbers_at = { numbers_at };

    ghost WORDS = { row_words };

    const WORDS: usize = WORDS;

    fn read<C: Cell>(table: &[C], b: usize) -> QualityRow {
        let x = Record::unnamed(
            C::number(table, b + 2),
            Offset(C::number(table, b + 3)),
            C::number(table, b + 4),
            C::number(table, b + 5),
        );
        QualityRow {
            record: x.named(C::number(table, b), C::number(table, b + 1)),
            qualities: Offset(C::number(table, b + 6)),
        }
    }

    fn write<C: Cell>(table: &mut [C], b: usize, x: QualityRow) {
        C::put(table, b, x.record.name_start);
        C::put(table, b + 1, x.record.name_length);
        C::put(table, b + 2, x.record.length);
        C::put(table, b + 3, x.record.position.0);
        C::put(table, b + 4, x.record.line_bases);
        C::put(table, b + 5, x.record.line_width);
        C::put(table, b + 6, x.qualities.0);
    }

    ghost sized = { refl };
}

// The calls below stay beside those of `kind`: the calls from C stand on `row`, and docs/PROMISES.md names them.

// How many whole rows a table has.
pub fn rows(table: &[u8]) -> usize
    ensures { result ≡ row_count (numbers_in table.now) }
{
    kind::rows::<QualityRows, u8>(table)
}

// The bases, or the qualities, of row `row` of a table that has `in_use` rows in use.
pub fn row(table: &[u8], in_use: usize, row: usize, part: Part) -> Result<(usize, Record), Refusal>
    ensures { result ≡ used_at (numbers_in table.now) in_use row part }
{
    let (number, x) = kind::row::<QualityRows, u8>(table, in_use, row)?;
    Ok((number, x.part(part)))
}

// Where the qualities of row `row` begin; 0 where the table has no such row.
pub fn qualities(table: &[u8], row: usize) -> Offset
    ensures { result ≡ qualities_at (numbers_in table.now) row }
{
    if rows(table) <= row {
        return Offset(0);
    }
    let x = QualityRows::read(table, row * WORDS);
    x.qualities
}

// Puts a row in row `row` of a table, and leaves every other byte there as it was.
pub fn store(table: &mut [u8], row: usize, x: QualityRow) -> Result<(), Refusal>
    ensures { StoredIn table.old row x result table.new }
{
    kind::store::<QualityRows, u8>(table, row, x)
}

// One turn of filling: puts the next row, if there is one, in row `row`.
pub fn keep(
    table: &mut [u8],
    row: usize,
    next: Result<Option<(QualityRow, usize)>, Refusal>,
) -> Result<Option<usize>, Refusal>
    ensures { KeptIn table.old row next result table.new }
{
    kind::keep::<QualityRows, u8>(table, row, next)
}
