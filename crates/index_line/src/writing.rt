// An index line written, whatever its numbers are: FASTA's lines have four, FASTQ's five.
ghost use Rattle.std.specs.Prelude.{◌≡◌, ℕ, List, ◌<◌, length};
ghost use Rattle.output.specs.Outcome.{leaves};
ghost use Rattle.table.specs.Rows.{named_of};
ghost use Rattle.record.specs.declared.Record.{Record};
ghost use Rattle.index_line.specs.Columns.{line_written};

use columns::fields;
use record::Record;
use refusal::Refusal;

// The numbers of a line, each with a tab before it.
pub trait Numbers<const N: usize>: Copy {
    ghost columns: { Self → Record → List ℕ };

    fn of(self, x: Record) -> [u64; N]
        ensures { result ≡ columns self x };

    // A line has not many numbers.
    ghost few: { N < 100 };
}

// Writes the line of a row in use to the front of the output. Its name is a span of `names`.
pub fn write_line<const N: usize, W: Numbers<N>>(
    numbers: W,
    names: &[u8],
    row: Result<(usize, Record), Refusal>,
    out: &mut [u8],
) -> Result<usize, Refusal>
    ensures { leaves result out.new ≡ line_written (W.columns numbers) names.now (named_of (length names.now) row) out.old }
{
    if refusal::over_limit(names.len()) {
        return Err(Refusal::TooLong);
    }
    let x = table::named(row, names.len())?;
    let start = x.name_start as usize;
    let end = start + x.name_length as usize;
    fields::write_text(&names[start..end], &numbers.of(x), out)
}
