// Entry points on bases.
ghost use Rattle.std.specs.Prelude.{◌≡◌};
ghost use Rattle.complement.specs.Complement.{complement_of, reverse_complement_of, complement_written};
ghost use Rattle.output.specs.Outcome.{leaves};
ghost use Rattle.wakeluri.specs.Told.{written_told};

use crate::answer::Answer;

// The complement of some bases.
pub fn wakeluri_complement(bases: &[u8], out: &mut [u8]) -> Answer
    ensures { leaves result out.new ≡ written_told (complement_written bases.now (complement_of bases.now) out.old) }
{
    let told = complement::complement(bases, out);
    Answer::from(told)
}

// The complement of some bases, from the last to the first.
pub fn wakeluri_reverse_complement(bases: &[u8], out: &mut [u8]) -> Answer
    ensures { leaves result out.new ≡ written_told (complement_written bases.now (reverse_complement_of bases.now) out.old) }
{
    let told = complement::reverse_complement(bases, out);
    Answer::from(told)
}
