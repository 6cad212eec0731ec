// Entry points of the scanning rule.
ghost use Rattle.std.specs.Prelude.{◌≡◌};
ghost use Rattle.sequence.specs.Read.{read_run, read_whole, read_limit};
ghost use Rattle.wakeluri.specs.Answer.{run_answer};
ghost use Rattle.output.specs.Outcome.{leaves};
ghost use Rattle.wakeluri.specs.Told.{sequence_told};

use crate::answer;
use crate::answer::{Answer, SpanAnswer};
use lines::Cursor;
use refusal::Numbers;

// The next run of bases from an offset on, and the place behind it.
pub fn wakeluri_read_run(file: &[u8], at: u64) -> SpanAnswer
    ensures { result ≡ run_answer (read_run file.now (record { at = at })) }
{
    match sequence::read_run(file, Cursor { at: at as usize }) {
        Ok(s) => answer::span_answer(answer::fine(), 1, s, s.start + s.length),
        Err(f) => answer::span_answer(Numbers::from(f), 0, answer::no_span(), 0),
    }
}

// The bases from an offset on.
pub fn wakeluri_read_sequence(file: &[u8], at: u64, out: &mut [u8]) -> Answer
    ensures { leaves result out.new ≡ sequence_told (read_whole file.now (record { at = at }) out.old) }
{
    let read = sequence::read_sequence(file, Cursor { at: at as usize }, out);
    Answer::from(read)
}

// At most so many bases from an offset on.
pub fn wakeluri_read_sequence_limit(file: &[u8], at: u64, limit: u64, out: &mut [u8]) -> Answer
    ensures { leaves result out.new ≡ sequence_told (read_limit file.now limit (record { at = at }) out.old) }
{
    let read = sequence::read_sequence_limit(file, Cursor { at: at as usize }, limit as usize, out);
    Answer::from(read)
}
