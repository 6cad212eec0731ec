// The bounds of a region: judging them (16, 17), and the bases that they stand for.
ghost use Rattle.std.specs.Prelude.{◌≡◌};
ghost use Rattle.region.specs.Region.{is_zero, crossed, bad_bounds, start_of, end_of};
ghost use Rattle.region.specs.Exact.{past_length};

use record::{Position, Record};

// Is a bound given, and 0.
#[tactic(auto, unfolding(crate::specs::Region::is_zero))]
fn is_zero(b: Option<Position>) -> bool
    ensures { result ≡ is_zero b }
{
    b.is_some_and(|p| p.0 == 0)
}

// Are both bounds given, and the start past the end.
#[tactic(auto, unfolding(crate::specs::Region::crossed))]
fn are_crossed(start: Option<Position>, end: Option<Position>) -> bool
    ensures { result ≡ crossed start end }
{
    matches!((start, end), (Some(a), Some(e)) if e.0 < a.0)
}

// Are the given bounds bad.
#[tactic(auto, unfolding(crate::specs::Region::bad_bounds))]
pub(crate) fn bad_bounds(start: Option<Position>, end: Option<Position>) -> bool
    ensures { result ≡ bad_bounds start end }
{
    is_zero(start) || is_zero(end) || are_crossed(start, end)
}

// The first base of a region.
#[tactic(auto, unfolding(crate::specs::Region::start_of))]
pub(crate) fn first_base(start: Option<Position>) -> Position
    ensures { result ≡ record { 0 = start_of start } }
{
    start.unwrap_or(Record::first())
}

// The last base of a region of a record of so many bases.
#[tactic(auto, unfolding(crate::specs::Region::end_of))]
pub(crate) fn last_base(bases: u64, end: Option<Position>) -> Position
    ensures { result ≡ record { 0 = end_of bases end } }
{
    end.unwrap_or(Position(bases))
}

// Is the first or the last base past the last of a record of so many.
#[tactic(auto, unfolding(crate::specs::Exact::past_length))]
pub(crate) fn past_length(bases: u64, first: Position, last: Position) -> bool
    ensures { result ≡ past_length bases first.0 last.0 }
{
    bases < first.0 || bases < last.0
}
