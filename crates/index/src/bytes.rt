// The same calls over a table that is lent as bytes: each answers and refuses as the one over the numbers of those bytes does.
// The calls stay beside those over numbers: the calls from C stand on them, and docs/PROMISES.md names them.
ghost use Rattle.std.specs.Prelude.{◌≡◌};
ghost use Rattle.table.specs.Numbers.{numbers_in};
ghost use Rattle.table.specs.Rows.{row_count};
ghost use Rattle.table.specs.Bytes.{FilledBytes};
ghost use Rattle.index.specs.Index.{index_in};
ghost use Rattle.index.specs.Find.{row_read};

use crate::Lines;
use refusal::Refusal;
use table::{Filled, Records, kind};

// Reads a whole index into a lent table, from its first row on; names are spans of the index.
pub fn read_index(text: &[u8], table: &mut [u8]) -> Filled
    ensures { FilledBytes (index_in text.now (row_count (numbers_in table.old))) table.old table.new result }
{
    kind::fill::<Records, u8, Lines>(Lines, text, 0, table).0
}

// Looks a name up in the rows in use.
pub fn find(names: &[u8], table: &[u8], in_use: usize, name: &[u8]) -> Result<usize, Refusal>
    ensures { result ≡ row_read names.now (numbers_in table.now) in_use name.now }
{
    crate::find_over(names, table, in_use, name)
}
