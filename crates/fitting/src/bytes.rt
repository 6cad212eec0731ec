// A file indexed into a table that is lent as bytes: it answers and refuses as the call over the numbers of those bytes does.
// The calls stay beside those over numbers: the calls from C stand on them, and docs/PROMISES.md names them.
ghost use Rattle.table.specs.Numbers.{numbers_in};
ghost use Rattle.table.specs.Rows.{row_count};
ghost use Rattle.table.specs.Bytes.{FilledBytes};
ghost use Rattle.table.specs.ByteLaws.{FilledRows, held_by};
ghost use Rattle.fitting.specs.Rules.{rows_by, rows_in};

use crate::Rule;
use table::{Filled, Records, kind};

// A row for each record from an offset on, of a file that is not too long, from the table's first row on. Offsets are those of the file.
pub fn index_from(s: &[u8], from: usize, table: &mut [u8], rule: Rule) -> Filled
    ensures { FilledRows (held_by table.old (rows_by rule s.now from)) table.old table.new result }
{
    kind::fill_rows::<Records, u8, Rule>(rule, s, from, table).0
}

// Indexes a whole file by a rule into a lent table, from its first row on.
pub fn index_file(s: &[u8], table: &mut [u8], rule: Rule) -> Filled
    ensures { FilledBytes (rows_in rule s.now (row_count (numbers_in table.old))) table.old table.new result }
{
    kind::fill::<Records, u8, Rule>(rule, s, 0, table).0
}
