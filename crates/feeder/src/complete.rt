// A line of a sequence by the complete rule: each base has to lie where the numbers of the record say. Refuses the first that does not (42).
ghost use Rattle.std.specs.Prelude.{◌≡◌, ◌+◌, ◌<◌, ◌^◌, eqb};
ghost use Rattle.lines.specs.Lines.{up_from};
ghost use Rattle.fitting.specs.Complete.{place_by};
ghost use Rattle.walking.specs.Places.{first_elsewhere};
ghost use Rattle.feeder.specs.Machine.{told_row, passed_out, rows_out, bases_out, complete_out};
ghost use Rattle.feeder.specs.Small.{SmallRows, FitsIn, RowFits};

use crate::{Opened, Out, Phase, SoFar, opening};
use fitting::Numbers;
use lines::Line;
use record::{Offset, Position, Record};
use refusal::Refusal;

// Do the numbers say that the base behind `count` others lies at `at`. It divides, since a product might not fit.
pub(crate) fn is_place(n: Numbers, count: usize, at: usize) -> bool
    requires { (0 < n.bases) × (0 < n.width) }
    ensures { result ≡ eqb at (place_by n count) }
{
    let line = count / n.bases;
    let column = count % n.bases;
    if at < n.position {
        return false;
    }
    let far = at - n.position;
    if far < column {
        return false;
    }
    let lines = far - column;
    if lines % n.width != 0 {
        return false;
    }
    lines / n.width == line
}

// Some bases, from `at` on, behind `count` others: is each where the numbers say.
fn place_bases(n: Numbers, count: usize, at: usize, bases: usize) -> Option<(Position, Offset)>
    requires { (0 < n.bases) × (n.bases < n.width) × (0 < bases) × (count < 2 ^ 62) × (at + bases < 2 ^ 62) }
    ensures { result ≡ first_elsewhere (place_by n) count (up_from at bases) }
{
    if is_place(n, count, at) {
        let left = n.bases - count % n.bases;
        if bases <= left {
            return None;
        }
        return Some((
            Position((count + left + 1) as u64),
            Offset((at + left) as u64),
        ));
    }
    Some((Position((count + 1) as u64), Offset(at as u64)))
}

// The row of a record, by what its lines say.
fn told_row(d: Opened, so_far: SoFar) -> Record
    requires { RowFits d }
    ensures { result ≡ told_row d so_far }
{
    match so_far {
        SoFar::Blank => opening::row_alone(d),
        SoFar::Run(n) => opening::row(d, n, n.bases),
        SoFar::Rows(n, count) => opening::row(d, n, count),
    }
}

// A line that fits: the record goes on at `next`, or ends there.
fn pass_line(d: Opened, so_far: SoFar, next: usize, last: bool) -> Out
    requires { RowFits d }
    ensures { result ≡ passed_out d so_far next last }
{
    if last {
        return Out::Emits(told_row(d, so_far), next);
    }
    Out::Keeps(Phase::Lines(d, so_far, next))
}

// The complete rule: a line with bases, beside rows.
fn judge_rows(d: Opened, n: Numbers, count: usize, at: usize, x: Line, last: bool) -> Out
    requires { SmallRows d n count at x }
    ensures { result ≡ rows_out d n count at x last }
{
    match place_bases(n, count, at, x.bases) {
        None => pass_line(d, SoFar::Rows(n, count + x.bases), at + x.width, last),
        Some((base, offset)) => opening::halted(Refusal::NoIndexFits {
            offset: offset.0,
            base: base.0,
        }),
    }
}

// A line with bases.
fn judge_bases(d: Opened, so_far: SoFar, at: usize, x: Line, last: bool) -> Out
    requires { FitsIn d so_far at x × (0 < x.bases) }
    ensures { result ≡ bases_out d so_far at x last }
{
    match so_far {
        SoFar::Blank => {
            let n = Numbers {
                position: at,
                bases: x.bases,
                width: x.width,
            };
            pass_line(d, SoFar::Run(n), at + x.width, last)
        }
        SoFar::Run(n) => {
            let rows = Numbers {
                width: at - n.position,
                ..n
            };
            judge_rows(d, rows, n.bases, at, x, last)
        }
        SoFar::Rows(n, count) => judge_rows(d, n, count, at, x, last),
    }
}

// The complete rule: a line without bases changes nothing.
pub(crate) fn judge_complete(d: Opened, so_far: SoFar, at: usize, x: Line, last: bool) -> Out
    requires { FitsIn d so_far at x }
    ensures { result ≡ complete_out d so_far at x last }
{
    if x.bases == 0 {
        return pass_line(d, so_far, at + x.width, last);
    }
    judge_bases(d, so_far, at, x, last)
}
