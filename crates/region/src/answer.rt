// What the exact read would answer: judges a region for a file of so many bytes and so much room, and reads nothing. It is for callers that
// have to know that several reads are good before they write the first byte.
ghost use Rattle.std.specs.Prelude.{◌≡◌, ◌<◌, false};
ghost use Rattle.table.specs.Rows.{held_of};
ghost use Rattle.region.specs.Region.{bad_bounds, start_of, end_of};
ghost use Rattle.region.specs.Judge.{region_judged};
ghost use Rattle.region.specs.Answer.{answer_of, exact_answer};

use crate::exact;
use record::{Position, Record};
use refusal::Refusal;

// How many bytes the region of a record has, by bounds that are not bad.
fn judged_answer(
    bytes: usize,
    x: Record,
    start: Option<Position>,
    end: Option<Position>,
    room: usize,
) -> Result<usize, Refusal>
    requires { (0 < x.line_bases) × (0 < x.line_width) × (bad_bounds start end ≡ false) }
    ensures { result ≡ answer_of (region_judged bytes x (start_of start) (end_of x.length end) room) }
{
    let bases = exact::judge_region(bytes, x, start, end, room)?;
    Ok(bases.count)
}

// What the exact read of a region of a row answers.
pub fn exact_answer(
    bytes: usize,
    row: Result<(usize, Record), Refusal>,
    start: Option<Position>,
    end: Option<Position>,
    room: usize,
) -> Result<usize, Refusal>
    ensures { result ≡ exact_answer bytes (held_of row) start end room }
{
    if refusal::over_limit(bytes) {
        return Err(Refusal::TooLong);
    }
    let x = crate::bounded_row(row, start, end)?;
    judged_answer(bytes, x, start, end, room)
}
