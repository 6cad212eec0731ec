// The exports of wakeluri's files.rt.
ghost use Rattle.std.specs.Prelude.{◌≡◌};
ghost use Rattle.table.specs.Rows.{row_count};
ghost use Rattle.indexer.specs.Index.{record_read};
ghost use Rattle.indexer.specs.File.{file_in};
ghost use Rattle.fitting.specs.declared.Rule.TheVariants.{Complete};
ghost use Rattle.fitting.specs.Rules.{rows_in};
ghost use Rattle.index.specs.Index.{index_in};
ghost use Rattle.checker.specs.Check.{check_of};
ghost use Rattle.table.specs.Numbers.{numbers_in};
ghost use Rattle.wakeluri.specs.Answer.{step_answer, verdict_answer};
ghost use Rattle.output.specs.Outcome.{leaves};
ghost use Rattle.wakeluri.specs.Told.{filled_told};

use wakeluri::answer::{Answer, RowAnswer};

// The row of the record at an offset, and the offset behind it.
#[unsafe(no_mangle)]
pub extern "C" fn wakeluri_index_record(file: &[u8], at: u64) -> RowAnswer
    ensures { result ≡ step_answer (record_read file.now (record { at = at })) }
{
    wakeluri::files::wakeluri_index_record(file, at)
}

// A row for each record of a file, by the original's rule, from the table's first on.
#[unsafe(no_mangle)]
pub extern "C" fn wakeluri_index_file(file: &[u8], table: &mut [u8]) -> Answer
    ensures { leaves result table.new ≡ filled_told (file_in file.now (row_count (numbers_in table.old))) table.old }
{
    wakeluri::files::wakeluri_index_file(file, table)
}

// The same by the complete rule, which takes every file that has a right index at all.
#[unsafe(no_mangle)]
pub extern "C" fn wakeluri_index_complete(file: &[u8], table: &mut [u8]) -> Answer
    ensures { leaves result table.new ≡ filled_told (rows_in Complete file.now (row_count (numbers_in table.old))) table.old }
{
    wakeluri::files::wakeluri_index_complete(file, table)
}

// A row for each line of an index, from the table's first on.
#[unsafe(no_mangle)]
pub extern "C" fn wakeluri_read_index(index: &[u8], table: &mut [u8]) -> Answer
    ensures { leaves result table.new ≡ filled_told (index_in index.now (row_count (numbers_in table.old))) table.old }
{
    wakeluri::files::wakeluri_read_index(index, table)
}

// Whether an index of any program leads to every base of a FASTA file.
#[unsafe(no_mangle)]
pub extern "C" fn wakeluri_check(fasta: &[u8], index: &[u8]) -> Answer
    ensures { result ≡ verdict_answer (check_of fasta.now index.now) }
{
    wakeluri::files::wakeluri_check(fasta, index)
}
