// The exports of wakeluri's course.rt.
ghost use Rattle.std.specs.Prelude.{◌≡◌};
ghost use Rattle.output.specs.Outcome.{leaves};
ghost use Rattle.exercise.specs.Reading.{read_as};
ghost use Rattle.exercise.specs.Writing.{written_as};
ghost use Rattle.scoring.specs.Places.{scored_as};
ghost use Rattle.scorer.specs.Scorer.{scorer_of};
ghost use Rattle.table.specs.Numbers.{numbers_in};
ghost use Rattle.wakeluri.specs.Told.{written_told};
ghost use Rattle.wakeluri.specs.Course.{exercise_answer, score_answer, scored_told};

use wakeluri::answer::Answer;
use wakeluri::course::{ExerciseAnswer, ScoreAnswer};

// What the bytes of an exercise say.
#[unsafe(no_mangle)]
pub extern "C" fn wakeluri_read_exercise(exercise: &[u8]) -> ExerciseAnswer
    ensures { result ≡ exercise_answer (read_as 2 exercise.now) }
{
    wakeluri::course::wakeluri_read_exercise(exercise)
}

// The bytes of an exercise.
#[unsafe(no_mangle)]
pub extern "C" fn wakeluri_write_exercise(
    name: &[u8],
    start: u64,
    end: u64,
    edition: u64,
    out: &mut [u8],
) -> Answer
    ensures { leaves result out.new ≡ written_told (written_as 2 name.now start end edition out.old) }
{
    wakeluri::course::wakeluri_write_exercise(name, start, end, edition, out)
}

// What was typed against a key, by the rules of an edition.
#[unsafe(no_mangle)]
pub extern "C" fn wakeluri_score_typed(key: &[u8], typed: &[u8], edition: u64) -> ScoreAnswer
    ensures { result ≡ score_answer (scored_as key.now typed.now edition) }
{
    wakeluri::course::wakeluri_score_typed(key, typed, edition)
}

// What was typed for an exercise: its key is fetched into the room.
#[unsafe(no_mangle)]
pub extern "C" fn wakeluri_score_exercise(
    exercise: &[u8],
    typed: &[u8],
    file: &[u8],
    names: &[u8],
    table: &[u8],
    in_use: u64,
    room: &mut [u8],
) -> ScoreAnswer
    ensures { leaves result room.new ≡ scored_told (scorer_of exercise.now typed.now file.now names.now (numbers_in table.now) in_use room.old) }
{
    wakeluri::course::wakeluri_score_exercise(exercise, typed, file, names, table, in_use, room)
}
