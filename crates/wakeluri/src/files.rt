// Entry points on whole files: a FASTA file indexed, an index read, and one checked against the other.
ghost use Rattle.std.specs.Prelude.{◌≡◌};
ghost use Rattle.table.specs.Rows.{row_count};
ghost use Rattle.indexer.specs.Index.{record_read};
ghost use Rattle.indexer.specs.File.{file_in};
ghost use Rattle.fitting.specs.declared.Rule.TheVariants.{Complete};
ghost use Rattle.fitting.specs.Rules.{rows_in};
ghost use Rattle.index.specs.Index.{index_in};
ghost use Rattle.checker.specs.Check.{check_of};
ghost use Rattle.table.specs.Numbers.{numbers_in};
ghost use Rattle.wakeluri.specs.Answer.{step_answer, verdict_answer};
ghost use Rattle.output.specs.Outcome.{leaves};
ghost use Rattle.wakeluri.specs.Told.{filled_told};

use crate::answer::{Answer, RowAnswer};
use fitting::Rule;
use indexer::Indexer;

// The row of the record at an offset, and the offset behind it.
pub fn wakeluri_index_record(file: &[u8], at: u64) -> RowAnswer
    ensures { result ≡ step_answer (record_read file.now (record { at = at })) }
{
    RowAnswer::from(Indexer { at: at as usize }.index_record(file))
}

// A row for each record of a file, by the original's rule, from the table's first on.
pub fn wakeluri_index_file(file: &[u8], table: &mut [u8]) -> Answer
    ensures { leaves result table.new ≡ filled_told (file_in file.now (row_count (numbers_in table.old))) table.old }
{
    let filled = fitting::bytes::index_file(file, table, Rule::Strict);
    Answer::from(filled)
}

// The same by the complete rule, which takes every file that has a right index at all.
pub fn wakeluri_index_complete(file: &[u8], table: &mut [u8]) -> Answer
    ensures { leaves result table.new ≡ filled_told (rows_in Complete file.now (row_count (numbers_in table.old))) table.old }
{
    let filled = fitting::bytes::index_file(file, table, Rule::Complete);
    Answer::from(filled)
}

// A row for each line of an index, from the table's first on.
pub fn wakeluri_read_index(index: &[u8], table: &mut [u8]) -> Answer
    ensures { leaves result table.new ≡ filled_told (index_in index.now (row_count (numbers_in table.old))) table.old }
{
    let filled = index::bytes::read_index(index, table);
    Answer::from(filled)
}

// Whether an index of any program leads to every base of a FASTA file.
pub fn wakeluri_check(fasta: &[u8], index: &[u8]) -> Answer
    ensures { result ≡ verdict_answer (check_of fasta.now index.now) }
{
    Answer::from(checker::check(fasta, index))
}
