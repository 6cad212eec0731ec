// A whole index: its lines as rows of a lent table, and names looked up in the rows. Refuses bytes over the size limit (1), a bad
// line (9 to 12, lines counted from 1) and a table without a free row (8); looking up, a bad row (25) and a name that no row has (15).
#![tactic(auto)]

pub mod bytes;

ghost use Rattle.std.specs.Prelude.{◌≡◌, ◌+◌, ◌≤◌, ◌<◌, ⊤, length};
ghost use Rattle.table.specs.Rows.{row_count, named_of};
ghost use Rattle.table.specs.Fill.{FilledAs};
ghost use Rattle.index.specs.Index.{row_at, index_at, index_in};
ghost use Rattle.index.specs.Find.{named, compared_of, row_named, row_read};

use lines::Cursor;
use record::Record;
use refusal::Refusal;
use table::kind::{Cell, Source};
use table::{Filled, Records, kind};

// Reads the index line at `at`, whose number is `line`; the row's name is a span of the whole text.
// It and `Lines` stand beside those of `fastq_index`: one over both is no plainer, as the placing of a row's name, in which they differ, is most of it.
pub fn read_row(text: &[u8], at: Cursor, line: u64) -> Result<Option<(Record, Cursor)>, Refusal>
    ensures { result ≡ row_at text.now line at.at }
{
    let a = at.at;
    if text.len() <= a {
        return Ok(None);
    }
    let found = index_line::parse_at(text, a, line);
    let x = found.read?;
    let r = x.record;
    Ok(Some((r.named(a as u64, r.name_length), Cursor { at: found.end })))
}

// The lines of an index, each a row; the line of row `row` is number `row` + 1.
#[derive(Clone, Copy)]
pub(crate) struct Lines;

impl Source<Records> for Lines {
    ghost rows = { λ s text n at. index_at text (n + 1) at };

    ghost reached = { λ s text from n at. ⊤ };

    fn next(self, text: &[u8], at: usize, row: usize) -> Result<Option<(Record, usize)>, Refusal> {
        match read_row(text, Cursor { at }, row as u64 + 1)? {
            Some((x, next)) => Ok(Some((x, next.at))),
            None => Ok(None),
        }
    }

    ghost start = { λ s text from. tt };
}

// Reads a whole index into a lent table, from its first row on; names are spans of the index.
pub fn read_index(text: &[u8], table: &mut [u64]) -> Filled
    ensures { FilledAs (index_in text.now (row_count table.old)) table.old table.new result }
{
    kind::fill::<Records, u64, Lines>(Lines, text, 0, table).0
}

// Does a record, whose name is a span of `names`, have the wanted name.
fn is_named(names: &[u8], x: Record, name: &[u8]) -> bool
    requires { x.name_start + x.name_length ≤ length names.now }
    ensures { result ≡ named names.now x name.now }
{
    let a = x.name_start as usize;
    let e = a + x.name_length as usize;
    comparing::same(&names[a..e], name)
}

// Compares the name of a row, which is a span of `names`, with the one looked for.
pub(crate) fn compare(
    names: &[u8],
    row: Result<(usize, Record), Refusal>,
    name: &[u8],
) -> Result<bool, Refusal>
    ensures { result ≡ compared_of names.now name.now (named_of (length names.now) row) }
{
    let x = table::named(row, names.len())?;
    Ok(is_named(names, x, name))
}

// The first of the rows in use that has the name. Names are spans of `names`; no size limit is judged.
fn find_row<C: Cell>(
    names: &[u8],
    table: &[C],
    in_use: usize,
    name: &[u8],
) -> Result<usize, Refusal>
    ensures { result ≡ row_named names.now (C.numbers table.now) in_use name.now }
{
    for r in 0..in_use {
        if compare(names, kind::row::<Records, C>(table, in_use, r), name)? {
            return Ok(r);
        }
    }
    Err(Refusal::NameUnknown)
}

// Looks a name up in the rows in use of a table of any kind.
pub(crate) fn find_over<C: Cell>(
    names: &[u8],
    table: &[C],
    in_use: usize,
    name: &[u8],
) -> Result<usize, Refusal>
    ensures { result ≡ row_read names.now (C.numbers table.now) in_use name.now }
{
    if refusal::over_limit(names.len()) {
        return Err(Refusal::TooLong);
    }
    if refusal::over_limit(name.len()) {
        return Err(Refusal::TooLong);
    }
    find_row(names, table, in_use, name)
}

// Looks a name up in the rows in use.
pub fn find(names: &[u8], table: &[u64], in_use: usize, name: &[u8]) -> Result<usize, Refusal>
    ensures { result ≡ row_read names.now table.now in_use name.now }
{
    find_over(names, table, in_use, name)
}
