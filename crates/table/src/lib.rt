// The rows of a lent table. A table is numbers, `WORDS` of them to a row, or bytes, eight to a number, low byte first (the module
// `bytes`); a part of a row at the end is ignored and stays. Only this crate knows how many numbers a row has. A row is read as
// a row in use, which is then judged: 25 refuses a row that is not in use or not in the table, one with line bases or line width 0, and,
// in calls that use names, a name or a description outside their bytes. A good record that finds no free row is refused (8). A table is
// filled from its first row on: the rows before a refusal stand, and what is behind them stays as it was.
#![tactic(auto)]

pub mod bytes;
pub mod kind;
pub mod numbers;

ghost use Rattle.std.specs.Prelude.{◌≡◌, ◌+◌, refl, ltb};
ghost use Rattle.table.specs.Rows.{row_words, records, numbers_at, row_count, sound_row, named_in, used_at, held_of, named_of, StoredAt};
ghost use Rattle.table.specs.Fill.{KeptAs};

use kind::{Cell, RowKind};
use record::{Offset, Record};
use refusal::Refusal;

// The numbers of a row.
pub const WORDS: usize = 8;

// How many rows are held, and why there are no more.
#[derive(Clone, Copy)]
pub struct Filled {
    pub rows: usize,
    pub stop: Result<(), Refusal>,
}

// Row `row` is refused.
pub(crate) fn bad(row: usize) -> Refusal
    ensures { result ≡ Refusal.BadRow row }
{
    Refusal::BadRow { row: row as u64 }
}

// The rows of FASTA: a record's numbers are its fields, in their order.
pub struct Records;

impl RowKind for Records {
    type Row = Record;

    ghost kind = { records };

    ghost numbers_at = { numbers_at };

    ghost WORDS = { row_words };

    const WORDS: usize = WORDS;

    fn read<C: Cell>(table: &[C], b: usize) -> Record {
        Record {
            name_start: C::number(table, b),
            name_length: C::number(table, b + 1),
            length: C::number(table, b + 2),
            position: Offset(C::number(table, b + 3)),
            line_bases: C::number(table, b + 4),
            line_width: C::number(table, b + 5),
            description_start: C::number(table, b + 6),
            description_length: C::number(table, b + 7),
        }
    }

    fn write<C: Cell>(table: &mut [C], b: usize, x: Record) {
        C::put(table, b, x.name_start);
        C::put(table, b + 1, x.name_length);
        C::put(table, b + 2, x.length);
        C::put(table, b + 3, x.position.0);
        C::put(table, b + 4, x.line_bases);
        C::put(table, b + 5, x.line_width);
        C::put(table, b + 6, x.description_start);
        C::put(table, b + 7, x.description_length);
    }

    ghost sized = { refl };
}

// Row `row` with its record, of which line bases and line width may not be 0.
fn sound(row: usize, x: Record) -> Result<Record, Refusal>
    ensures { result ≡ sound_row row x }
{
    if x.line_bases == 0 {
        return Err(bad(row));
    }
    if x.line_width == 0 {
        return Err(bad(row));
    }
    Ok(x)
}

// Does a span end past `bytes` bytes. No sum is made: it may not fit.
fn outside(bytes: usize, start: u64, length: u64) -> bool
    ensures { result ≡ ltb bytes (start + length) }
{
    let all = bytes as u64;
    if all < start {
        return true;
    }
    all - start < length
}

// Row `row` with its record, whose name and description have to lie inside `bytes` bytes.
fn named_in(bytes: usize, row: usize, x: Record) -> Result<Record, Refusal>
    ensures { result ≡ named_in bytes row (Ok x) }
{
    if outside(bytes, x.name_start, x.name_length) {
        return Err(bad(row));
    }
    if outside(bytes, x.description_start, x.description_length) {
        return Err(bad(row));
    }
    Ok(x)
}

// The record that a row in use holds.
pub fn held(row: Result<(usize, Record), Refusal>) -> Result<Record, Refusal>
    ensures { result ≡ held_of row }
{
    let (number, x) = row?;
    sound(number, x)
}

// The same for a call that uses its name: name and description are spans of `bytes` bytes.
pub fn named(row: Result<(usize, Record), Refusal>, bytes: usize) -> Result<Record, Refusal>
    ensures { result ≡ named_of bytes row }
{
    let (number, x) = row?;
    let y = sound(number, x)?;
    named_in(bytes, number, y)
}

// The calls below stay beside those of `kind`: docs/PROMISES.md names them.

// How many whole rows a table has.
pub fn rows(table: &[u64]) -> usize
    ensures { result ≡ row_count table.now }
{
    kind::rows::<Records, u64>(table)
}

// Row `row` of a table that has `in_use` rows in use.
pub fn row(table: &[u64], in_use: usize, row: usize) -> Result<(usize, Record), Refusal>
    ensures { result ≡ used_at table.now in_use row }
{
    kind::row::<Records, u64>(table, in_use, row)
}

// Puts a record in row `row` of a table, and leaves every other number there as it was.
pub fn store(table: &mut [u64], row: usize, x: Record) -> Result<(), Refusal>
    ensures { StoredAt table.old row x result table.new }
{
    kind::store::<Records, u64>(table, row, x)
}

// One turn of filling: puts the next record, if there is one, in row `row`.
pub fn keep(
    table: &mut [u64],
    row: usize,
    next: Result<Option<(Record, usize)>, Refusal>,
) -> Result<Option<usize>, Refusal>
    ensures { KeptAs table.old row next result table.new }
{
    kind::keep::<Records, u64>(table, row, next)
}
