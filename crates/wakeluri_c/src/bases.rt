// The exports of wakeluri's bases.rt.
ghost use Rattle.std.specs.Prelude.{◌≡◌};
ghost use Rattle.complement.specs.Complement.{complement_of, reverse_complement_of, complement_written};
ghost use Rattle.output.specs.Outcome.{leaves};
ghost use Rattle.wakeluri.specs.Told.{written_told};

use wakeluri::answer::Answer;

// The complement of some bases.
#[unsafe(no_mangle)]
pub extern "C" fn wakeluri_complement(bases: &[u8], out: &mut [u8]) -> Answer
    ensures { leaves result out.new ≡ written_told (complement_written bases.now (complement_of bases.now) out.old) }
{
    wakeluri::bases::wakeluri_complement(bases, out)
}

// The complement of some bases, from the last to the first.
#[unsafe(no_mangle)]
pub extern "C" fn wakeluri_reverse_complement(bases: &[u8], out: &mut [u8]) -> Answer
    ensures { leaves result out.new ≡ written_told (complement_written bases.now (reverse_complement_of bases.now) out.old) }
{
    wakeluri::bases::wakeluri_reverse_complement(bases, out)
}
