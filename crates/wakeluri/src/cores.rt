// Entry points on a part of a file, for a host that has several cores: the records that begin between two numbers. Parts whose numbers rise
// from 0 to the end of the file give the whole (parts/specs/Together.antt).
ghost use Rattle.std.specs.Prelude.{◌≡◌};
ghost use Rattle.table.specs.Rows.{row_count};
ghost use Rattle.table.specs.Numbers.{numbers_in};
ghost use Rattle.output.specs.Outcome.{leaves};
ghost use Rattle.parts.specs.Parts.{part_in, part_checked};
ghost use Rattle.wakeluri.specs.Answer.{verdict_answer};
ghost use Rattle.wakeluri.specs.Told.{filled_told};
ghost use Rattle.wakeluri.specs.Feeding.{rule_by};

use crate::answer::Answer;
use crate::feeding;

// A row for each record of a file that begins at `from` or behind it, and before `to`, from the table's first on: by the original's rule
// for 0, else by the complete one.
pub fn wakeluri_index_part(
    file: &[u8],
    from: u64,
    to: u64,
    complete: u64,
    table: &mut [u8],
) -> Answer
    ensures { leaves result table.new ≡ filled_told (part_in (rule_by complete) file.now from to (row_count (numbers_in table.old))) table.old }
{
    let rule = feeding::rule_by(complete);
    let filled = parts::index_part(file, from as usize, to as usize, table, rule);
    Answer::from(filled)
}

// Whether the index lines that begin at `first` or behind it, and before `last`, lead to every base of the records that begin at `from` or
// behind it, and before `to`.
pub fn wakeluri_check_part(
    fasta: &[u8],
    from: u64,
    to: u64,
    index: &[u8],
    first: u64,
    last: u64,
) -> Answer
    ensures { result ≡ verdict_answer (part_checked fasta.now from to index.now first last) }
{
    let verdict = parts::check_part(
        fasta,
        from as usize,
        to as usize,
        index,
        first as usize,
        last as usize,
    );
    Answer::from(verdict)
}
