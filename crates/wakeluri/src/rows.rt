// Entry points on the rows of a table: names looked up, index lines written, regions read.
ghost use Rattle.std.specs.Prelude.{◌≡◌};
ghost use Rattle.index.specs.Find.{row_read};
ghost use Rattle.index_line.specs.IndexLine.{written_as};
ghost use Rattle.region.specs.Exact.{exact_read};
ghost use Rattle.region.specs.Raw.{raw_read};
ghost use Rattle.table.specs.Numbers.{numbers_in};
ghost use Rattle.table.specs.Rows.{used_at};
ghost use Rattle.wakeluri.specs.Answer.{bound_of, found_answer};
ghost use Rattle.output.specs.Outcome.{leaves};
ghost use Rattle.wakeluri.specs.Told.{written_told};

use crate::answer::Answer;
use record::{Position, Record};
use refusal::Refusal;

// A bound as a host gives it: absent if its flag is 0.
// The sheet has its own: one for both would be a public function, with edits of its own, for one line.
pub(crate) fn bound(flag: u64, p: u64) -> Option<Position>
    ensures { result ≡ bound_of flag p }
{
    if flag == 0 {
        return None;
    }
    Some(Position(p))
}

// Row `row` of a table with so many rows in use.
pub(crate) fn used_row(table: &[u8], in_use: u64, row: u64) -> Result<(usize, Record), Refusal>
    ensures { result ≡ used_at (numbers_in table.now) in_use row }
{
    table::bytes::row(table, in_use as usize, row as usize)
}

// The first row in use that has the name.
pub fn wakeluri_find(names: &[u8], table: &[u8], in_use: u64, name: &[u8]) -> Answer
    ensures { result ≡ found_answer (row_read names.now (numbers_in table.now) in_use name.now) }
{
    Answer::from(index::bytes::find(names, table, in_use as usize, name))
}

// The index line of a row, with its LF.
pub fn wakeluri_write_index_line(
    names: &[u8],
    table: &[u8],
    in_use: u64,
    row: u64,
    out: &mut [u8],
) -> Answer
    ensures { leaves result out.new ≡ written_told (written_as names.now (numbers_in table.now) in_use row out.old) }
{
    let written = index_line::write_line(names, used_row(table, in_use, row), out);
    Answer::from(written)
}

// Exactly the bases of a region of a row's record.
pub fn wakeluri_read_exact(
    file: &[u8],
    table: &[u8],
    in_use: u64,
    row: u64,
    has_start: u64,
    start: u64,
    has_end: u64,
    end: u64,
    out: &mut [u8],
) -> Answer
    ensures { leaves result out.new ≡ written_told (exact_read file.now (numbers_in table.now) in_use row (bound_of has_start start) (bound_of has_end end) out.old) }
{
    let a = bound(has_start, start);
    let e = bound(has_end, end);
    let read = region::read_exact(file, used_row(table, in_use, row), a, e, out);
    Answer::from(read)
}

// The bases that a scan finds from the start of a region of a row's record on.
pub fn wakeluri_read_raw(
    file: &[u8],
    table: &[u8],
    in_use: u64,
    row: u64,
    has_start: u64,
    start: u64,
    has_end: u64,
    end: u64,
    out: &mut [u8],
) -> Answer
    ensures { leaves result out.new ≡ written_told (raw_read file.now (numbers_in table.now) in_use row (bound_of has_start start) (bound_of has_end end) out.old) }
{
    let a = bound(has_start, start);
    let e = bound(has_end, end);
    let read = region::read_raw(file, used_row(table, in_use, row), a, e, out);
    Answer::from(read)
}
