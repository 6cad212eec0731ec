// The exports of wakeluri's qualities.rt.
ghost use Rattle.std.specs.Prelude.{◌≡◌};
ghost use Rattle.output.specs.Outcome.{leaves};
ghost use Rattle.table.specs.Numbers.{numbers_in};
ghost use Rattle.fastq_table.specs.Rows.{row_count};
ghost use Rattle.fastq_line.specs.SixColumns.{read_line};
ghost use Rattle.fastq_index.specs.File.{file_in};
ghost use Rattle.fastq_index.specs.Part.{part_in};
ghost use Rattle.fastq_index.specs.Text.{index_in};
ghost use Rattle.fastq_checker.specs.Check.{check_of};
ghost use Rattle.fastq_checker.specs.Part.{part_checked};
ghost use Rattle.wakeluri.specs.Answer.{bound_of, verdict_answer};
ghost use Rattle.wakeluri.specs.Told.{written_told};
ghost use Rattle.wakeluri.specs.Qualities.{part_given, fastq_answer, rows_told, part_told, passed_answer, line_from, part_read};

use wakeluri::answer::Answer;
use wakeluri::qualities::FastqAnswer;

// A row for each record of a FASTQ file, from the table's first on.
#[unsafe(no_mangle)]
pub extern "C" fn wakeluri_fastq_index(file: &[u8], table: &mut [u8]) -> Answer
    ensures { leaves result table.new ≡ rows_told (file_in file.now (row_count (numbers_in table.old))) table.old }
{
    wakeluri::qualities::wakeluri_fastq_index(file, table)
}

// A row for each record of a FASTQ file from `from` on, where one begins, that begins before `to`, from the table's first on; and the offset behind
// the last of them, so that the next part goes on from there.
#[unsafe(no_mangle)]
pub extern "C" fn wakeluri_fastq_index_part(
    file: &[u8],
    from: u64,
    to: u64,
    table: &mut [u8],
) -> Answer
    ensures { leaves result table.new ≡ part_told file.now from (part_in file.now from to (row_count (numbers_in table.old))) table.old }
{
    wakeluri::qualities::wakeluri_fastq_index_part(file, from, to, table)
}

// A row for each line of an index of six columns, from the table's first on.
#[unsafe(no_mangle)]
pub extern "C" fn wakeluri_fastq_read_index(index: &[u8], table: &mut [u8]) -> Answer
    ensures { leaves result table.new ≡ rows_told (index_in index.now (row_count (numbers_in table.old))) table.old }
{
    wakeluri::qualities::wakeluri_fastq_read_index(index, table)
}

// What an index line of six columns says, given with its end.
#[unsafe(no_mangle)]
pub extern "C" fn wakeluri_fastq_read_line(line: &[u8]) -> FastqAnswer
    ensures { result ≡ fastq_answer (read_line line.now) }
{
    wakeluri::qualities::wakeluri_fastq_read_line(line)
}

// The index line of a row, of six columns and with its LF.
#[unsafe(no_mangle)]
pub extern "C" fn wakeluri_fastq_write_line(
    names: &[u8],
    table: &[u8],
    in_use: u64,
    row: u64,
    out: &mut [u8],
) -> Answer
    ensures { leaves result out.new ≡ written_told (line_from names.now (numbers_in table.now) in_use row out.old) }
{
    wakeluri::qualities::wakeluri_fastq_write_line(names, table, in_use, row, out)
}

// Exactly the bases, or the qualities, of a region of a row's record.
#[unsafe(no_mangle)]
pub extern "C" fn wakeluri_fastq_read(
    file: &[u8],
    table: &[u8],
    in_use: u64,
    row: u64,
    has_start: u64,
    start: u64,
    has_end: u64,
    end: u64,
    qualities: u64,
    out: &mut [u8],
) -> Answer
    ensures { leaves result out.new ≡ written_told (part_read (part_given qualities) file.now (numbers_in table.now) in_use row (bound_of has_start start) (bound_of has_end end) out.old) }
{
    wakeluri::qualities::wakeluri_fastq_read(
        file, table, in_use, row, has_start, start, has_end, end, qualities, out,
    )
}

// Whether an index of six columns, of any program, leads to every base and to every quality of a FASTQ file.
#[unsafe(no_mangle)]
pub extern "C" fn wakeluri_fastq_check(fastq: &[u8], index: &[u8]) -> Answer
    ensures { result ≡ verdict_answer (check_of fastq.now index.now) }
{
    wakeluri::qualities::wakeluri_fastq_check(fastq, index)
}

// How far the records of a FASTQ file from `from` on, where one begins, that begin before `to` are accepted with the index lines from `first` on.
#[unsafe(no_mangle)]
pub extern "C" fn wakeluri_fastq_check_part(
    fastq: &[u8],
    from: u64,
    to: u64,
    index: &[u8],
    first: u64,
) -> Answer
    ensures { result ≡ passed_answer (part_checked fastq.now from to index.now first) }
{
    wakeluri::qualities::wakeluri_fastq_check_part(fastq, from, to, index, first)
}
