// The scorer: from the bytes of an exercise and what was typed to a score. The exercise names a sequence and its bounds. The scorer looks up the
// name, fetches the key by the exact read into a lent room, and counts what was typed against it, by the rule of the exercise's edition. An
// exercise always asks for all bases from its start to its end: if the key is not there in full, the call is refused; it never takes a shorter key.
// Refused, in this order: 1, one of the lent inputs is too long; 31, 32, 33, the exercise; 25, 15, the name; 16, 17, 14, 18, the read. After a
// score the key stands at the front of the room, and what is behind it stays; a refusal leaves the room as it was.
#![tactic(auto)]

ghost use Rattle.std.specs.Prelude.{◌≡◌, ◌+◌, ◌≤◌, length};
ghost use Rattle.output.specs.Outcome.{leaves};
ghost use Rattle.index.specs.Find.{row_read};
ghost use Rattle.table.specs.Numbers.{numbers_in};
ghost use Rattle.table.specs.Rows.{held_of};
ghost use Rattle.scorer.specs.Scorer.{any_over, name_asked, asked_of, row_scored, scorer_of};

use exercise::Exercise;
use record::{Position, Record};
use refusal::Refusal;
use scoring::Score;

// Is one of the lent inputs over the limit.
#[tactic(auto, unfolding(crate::specs::Scorer::any_over))]
fn any_over(exercise: &[u8], typed: &[u8], file: &[u8], names: &[u8]) -> bool
    ensures { result ≡ any_over exercise.now typed.now file.now names.now }
{
    refusal::over_limit(exercise.len())
        || refusal::over_limit(typed.len())
        || refusal::over_limit(file.len())
        || refusal::over_limit(names.len())
}

// The row of the sequence that an exercise names.
fn find_row(
    exercise: &[u8],
    x: Exercise,
    names: &[u8],
    table: &[u8],
    in_use: usize,
) -> Result<usize, Refusal>
    requires { x.name_start + x.name_length ≤ length exercise.now }
    ensures { result ≡ row_read names.now (numbers_in table.now) in_use (name_asked exercise.now x) }
{
    let a = x.name_start;
    let e = a + x.name_length;
    index::bytes::find(names, table, in_use, &exercise[a..e])
}

// What an exercise asks: 31 to 33, then 25 and 15.
fn asked_row(
    exercise: &[u8],
    names: &[u8],
    table: &[u8],
    in_use: usize,
) -> Result<(Exercise, usize), Refusal>
    ensures { result ≡ asked_of exercise.now names.now (numbers_in table.now) in_use }
{
    let x = exercise::read_exercise(exercise)?;
    let row = find_row(exercise, x, names, table, in_use)?;
    Ok((x, row))
}

// Reads the key of an exercise from a row into the room, and counts what was typed against it.
fn score_row(
    x: Exercise,
    typed: &[u8],
    file: &[u8],
    row: Result<(usize, Record), Refusal>,
    room: &mut [u8],
) -> Result<Score, Refusal>
    ensures { leaves result room.new ≡ row_scored x typed.now file.now (held_of row) room.old }
{
    let start = Some(Position(x.start));
    let end = Some(Position(x.end));
    let n = region::read_exact(file, row, start, end, room)?;
    scoring::score_key(&room[..n], typed, x.edition)
}

// The whole, from the bytes of an exercise to a score. Names are spans of `names`; the table is lent as bytes.
pub fn score_exercise(
    exercise: &[u8],
    typed: &[u8],
    file: &[u8],
    names: &[u8],
    table: &[u8],
    in_use: usize,
    room: &mut [u8],
) -> Result<Score, Refusal>
    ensures { leaves result room.new ≡ scorer_of exercise.now typed.now file.now names.now (numbers_in table.now) in_use room.old }
{
    if any_over(exercise, typed, file, names) {
        return Err(Refusal::TooLong);
    }
    let (x, row) = asked_row(exercise, names, table, in_use)?;
    let held = table::bytes::row(table, in_use, row);
    score_row(x, typed, file, held, room)
}
