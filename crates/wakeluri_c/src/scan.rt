// The exports of wakeluri's scan.rt.
ghost use Rattle.std.specs.Prelude.{◌≡◌};
ghost use Rattle.sequence.specs.Read.{read_run, read_whole, read_limit};
ghost use Rattle.wakeluri.specs.Answer.{run_answer};
ghost use Rattle.output.specs.Outcome.{leaves};
ghost use Rattle.wakeluri.specs.Told.{sequence_told};

use wakeluri::answer::{Answer, SpanAnswer};

// The next run of bases from an offset on, and the place behind it.
#[unsafe(no_mangle)]
pub extern "C" fn wakeluri_read_run(file: &[u8], at: u64) -> SpanAnswer
    ensures { result ≡ run_answer (read_run file.now (record { at = at })) }
{
    wakeluri::scan::wakeluri_read_run(file, at)
}

// The bases from an offset on.
#[unsafe(no_mangle)]
pub extern "C" fn wakeluri_read_sequence(file: &[u8], at: u64, out: &mut [u8]) -> Answer
    ensures { leaves result out.new ≡ sequence_told (read_whole file.now (record { at = at }) out.old) }
{
    wakeluri::scan::wakeluri_read_sequence(file, at, out)
}

// At most so many bases from an offset on.
#[unsafe(no_mangle)]
pub extern "C" fn wakeluri_read_sequence_limit(
    file: &[u8],
    at: u64,
    limit: u64,
    out: &mut [u8],
) -> Answer
    ensures { leaves result out.new ≡ sequence_told (read_limit file.now limit (record { at = at }) out.old) }
{
    wakeluri::scan::wakeluri_read_sequence_limit(file, at, limit, out)
}
