// Entry points of the course: exercises read and written, and what was typed counted against a key, which is lent or fetched.
ghost use Rattle.std.specs.Prelude.{◌≡◌};
ghost use Rattle.output.specs.Outcome.{leaves};
ghost use Rattle.exercise.specs.Reading.{read_as};
ghost use Rattle.exercise.specs.Writing.{written_as};
ghost use Rattle.scoring.specs.Places.{scored_as};
ghost use Rattle.scorer.specs.Scorer.{scorer_of};
ghost use Rattle.table.specs.Numbers.{numbers_in};
ghost use Rattle.wakeluri.specs.Told.{written_told};
ghost use Rattle.wakeluri.specs.Course.{no_exercise, no_score, exercise_told, score_told, exercise_answer, score_answer, scored_told};

use crate::answer;
use crate::answer::Answer;
use exercise::Exercise;
use refusal::{Numbers, Refusal};
use scoring::Score;

// An exercise: where its name lies in its bytes, its first and last base, and its edition.
#[repr(C)]
#[derive(Clone, Copy)]
pub struct ExerciseAnswer {
    pub refusal: u64,
    pub first: u64,
    pub second: u64,
    pub name_start: u64,
    pub name_length: u64,
    pub start: u64,
    pub end: u64,
    pub edition: u64,
}

// The counts over a key's places, the typed bytes past it, and the score in tenths of a percent.
#[repr(C)]
#[derive(Clone, Copy)]
pub struct ScoreAnswer {
    pub refusal: u64,
    pub first: u64,
    pub second: u64,
    pub right: u64,
    pub wrong: u64,
    pub missing: u64,
    pub surplus: u64,
    pub score: u64,
}

// No exercise, and no score.
fn no_exercise() -> Exercise
    ensures { result ≡ no_exercise }
{
    Exercise {
        name_start: 0,
        name_length: 0,
        start: 0,
        end: 0,
        edition: 0,
    }
}

fn no_score() -> Score
    ensures { result ≡ no_score }
{
    Score {
        right: 0,
        wrong: 0,
        missing: 0,
        surplus: 0,
        score: 0,
    }
}

// The two structs, field by field.
fn exercise_told(n: Numbers, x: Exercise) -> ExerciseAnswer
    ensures { result ≡ exercise_told n x }
{
    ExerciseAnswer {
        refusal: n.refusal,
        first: n.first,
        second: n.second,
        name_start: x.name_start as u64,
        name_length: x.name_length as u64,
        start: x.start,
        end: x.end,
        edition: x.edition,
    }
}

fn score_told(n: Numbers, s: Score) -> ScoreAnswer
    ensures { result ≡ score_told n s }
{
    ScoreAnswer {
        refusal: n.refusal,
        first: n.first,
        second: n.second,
        right: s.right,
        wrong: s.wrong,
        missing: s.missing,
        surplus: s.surplus,
        score: s.score,
    }
}

// What an exercise says.
impl From<Result<Exercise, Refusal>> for ExerciseAnswer {
    ghost from_gives = { λ r told. told ≡ exercise_answer r };

    #[tactic(auto, unfolding(crate::specs::Course::exercise_answer))]
    fn from(r: Result<Exercise, Refusal>) -> ExerciseAnswer {
        match r {
            Ok(x) => exercise_told(answer::fine(), x),
            Err(f) => exercise_told(Numbers::from(f), no_exercise()),
        }
    }
}

// How a key and what was typed compare.
impl From<Result<Score, Refusal>> for ScoreAnswer {
    ghost from_gives = { λ r told. told ≡ score_answer r };

    #[tactic(auto, unfolding(crate::specs::Course::score_answer))]
    fn from(r: Result<Score, Refusal>) -> ScoreAnswer {
        match r {
            Ok(s) => score_told(answer::fine(), s),
            Err(f) => score_told(Numbers::from(f), no_score()),
        }
    }
}

// What the bytes of an exercise say.
pub fn wakeluri_read_exercise(exercise: &[u8]) -> ExerciseAnswer
    ensures { result ≡ exercise_answer (read_as 2 exercise.now) }
{
    ExerciseAnswer::from(exercise::read_exercise(exercise))
}

// The bytes of an exercise.
pub fn wakeluri_write_exercise(
    name: &[u8],
    start: u64,
    end: u64,
    edition: u64,
    out: &mut [u8],
) -> Answer
    ensures { leaves result out.new ≡ written_told (written_as 2 name.now start end edition out.old) }
{
    let written = exercise::write_exercise(name, start, end, edition, out);
    Answer::from(written)
}

// What was typed against a key, by the rules of an edition.
pub fn wakeluri_score_typed(key: &[u8], typed: &[u8], edition: u64) -> ScoreAnswer
    ensures { result ≡ score_answer (scored_as key.now typed.now edition) }
{
    ScoreAnswer::from(scoring::score_typed(key, typed, edition))
}

// What was typed for an exercise: its key is fetched into the room.
pub fn wakeluri_score_exercise(
    exercise: &[u8],
    typed: &[u8],
    file: &[u8],
    names: &[u8],
    table: &[u8],
    in_use: u64,
    room: &mut [u8],
) -> ScoreAnswer
    ensures { leaves result room.new ≡ scored_told (scorer_of exercise.now typed.now file.now names.now (numbers_in table.now) in_use room.old) }
{
    let scored = scorer::score_exercise(exercise, typed, file, names, table, in_use as usize, room);
    ScoreAnswer::from(scored)
}
