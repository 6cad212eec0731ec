// The rows of a table that is lent as bytes, as a host has it: each is read and written where it lies, as the same row of the numbers of
// those bytes.
ghost use Rattle.std.specs.Prelude.{◌≡◌};
ghost use Rattle.table.specs.Numbers.{numbers_in};
ghost use Rattle.table.specs.Rows.{row_count, used_at};
ghost use Rattle.table.specs.Bytes.{StoredIn, KeptIn};

// The calls stay beside those of `kind`: the calls from C stand on `row`, and docs/PROMISES.md names them.
use crate::{Records, kind};
use record::Record;
use refusal::Refusal;

// How many whole rows a table has.
pub fn rows(table: &[u8]) -> usize
    ensures { result ≡ row_count (numbers_in table.now) }
{
    kind::rows::<Records, u8>(table)
}

// Row `row` of a table that has `in_use` rows in use.
pub fn row(table: &[u8], in_use: usize, row: usize) -> Result<(usize, Record), Refusal>
    ensures { result ≡ used_at (numbers_in table.now) in_use row }
{
    kind::row::<Records, u8>(table, in_use, row)
}

// Puts a record in row `row` of a table, and leaves every other byte there as it was.
pub fn store(table: &mut [u8], row: usize, x: Record) -> Result<(), Refusal>
    ensures { StoredIn table.old row x result table.new }
{
    kind::store::<Records, u8>(table, row, x)
}

// One turn of filling: puts the next record, if there is one, in row `row`.
pub fn keep(
    table: &mut [u8],
    row: usize,
    next: Result<Option<(Record, usize)>, Refusal>,
) -> Result<Option<usize>, Refusal>
    ensures { KeptIn table.old row next result table.new }
{
    kind::keep::<Records, u8>(table, row, next)
}
