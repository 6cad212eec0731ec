// The exports of wakeluri's rows.rt.
ghost use Rattle.std.specs.Prelude.{◌≡◌};
ghost use Rattle.index.specs.Find.{row_read};
ghost use Rattle.index_line.specs.IndexLine.{written_as};
ghost use Rattle.region.specs.Exact.{exact_read};
ghost use Rattle.region.specs.Raw.{raw_read};
ghost use Rattle.table.specs.Numbers.{numbers_in};
ghost use Rattle.wakeluri.specs.Answer.{bound_of, found_answer};
ghost use Rattle.output.specs.Outcome.{leaves};
ghost use Rattle.wakeluri.specs.Told.{written_told};

use wakeluri::answer::Answer;

// The first row in use that has the name.
#[unsafe(no_mangle)]
pub extern "C" fn wakeluri_find(names: &[u8], table: &[u8], in_use: u64, name: &[u8]) -> Answer
    ensures { result ≡ found_answer (row_read names.now (numbers_in table.now) in_use name.now) }
{
    wakeluri::rows::wakeluri_find(names, table, in_use, name)
}

// The index line of a row, with its LF.
#[unsafe(no_mangle)]
pub extern "C" fn wakeluri_write_index_line(
    names: &[u8],
    table: &[u8],
    in_use: u64,
    row: u64,
    out: &mut [u8],
) -> Answer
    ensures { leaves result out.new ≡ written_told (written_as names.now (numbers_in table.now) in_use row out.old) }
{
    wakeluri::rows::wakeluri_write_index_line(names, table, in_use, row, out)
}

// Exactly the bases of a region of a row's record.
#[unsafe(no_mangle)]
pub extern "C" fn wakeluri_read_exact(
    file: &[u8],
    table: &[u8],
    in_use: u64,
    row: u64,
    has_start: u64,
    start: u64,
    has_end: u64,
    end: u64,
    out: &mut [u8],
) -> Answer
    ensures { leaves result out.new ≡ written_told (exact_read file.now (numbers_in table.now) in_use row (bound_of has_start start) (bound_of has_end end) out.old) }
{
    wakeluri::rows::wakeluri_read_exact(
        file, table, in_use, row, has_start, start, has_end, end, out,
    )
}

// The bases that a scan finds from the start of a region of a row's record on.
#[unsafe(no_mangle)]
pub extern "C" fn wakeluri_read_raw(
    file: &[u8],
    table: &[u8],
    in_use: u64,
    row: u64,
    has_start: u64,
    start: u64,
    has_end: u64,
    end: u64,
    out: &mut [u8],
) -> Answer
    ensures { leaves result out.new ≡ written_told (raw_read file.now (numbers_in table.now) in_use row (bound_of has_start start) (bound_of has_end end) out.old) }
{
    wakeluri::rows::wakeluri_read_raw(
        file, table, in_use, row, has_start, start, has_end, end, out,
    )
}
