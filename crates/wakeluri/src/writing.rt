// Entry points that write FASTA.
ghost use Rattle.std.specs.Prelude.{◌≡◌};
ghost use Rattle.output.specs.Outcome.{leaves};
ghost use Rattle.writer.specs.Text.{record_written, sequence_written};
ghost use Rattle.wakeluri.specs.Answer.{given_by};
ghost use Rattle.wakeluri.specs.Told.{written_told};

use crate::answer::Answer;

// Is something given, by its flag.
fn is_given(flag: u64) -> bool
    ensures { result ≡ given_by flag }
{
    flag != 0
}

// A record: its definition line, and its bases in lines of a width. There is no description if its flag is 0.
pub fn wakeluri_write_record(
    name: &[u8],
    has_description: u64,
    description: &[u8],
    bases: &[u8],
    width: u64,
    out: &mut [u8],
) -> Answer
    ensures { leaves result out.new ≡ written_told (record_written name.now (given_by has_description) description.now bases.now width out.old) }
{
    let described = is_given(has_description);
    let written = writer::write_record(name, described, description, bases, width as usize, out);
    Answer::from(written)
}

// Bases alone, in lines of a width: the next piece of a record whose first pieces were whole lines.
pub fn wakeluri_write_sequence(bases: &[u8], width: u64, out: &mut [u8]) -> Answer
    ensures { leaves result out.new ≡ written_told (sequence_written bases.now width out.old) }
{
    let written = writer::write_sequence(bases, width as usize, out);
    Answer::from(written)
}
