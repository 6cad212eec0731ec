// Judges a line, by either rule, and stores the row that it may give. Refuses as each rule does, and a row without room in the table (8).
ghost use Rattle.std.specs.Prelude.{◌≡◌, ◌<◌, ◌^◌};
ghost use Rattle.feeder.specs.Machine.{line_out, out_of, SettleDone};
ghost use Rattle.feeder.specs.Small.{SmallWaiting, SmallPhase, FitsIn};

use crate::{Opened, Out, Phase, Settled, SoFar, Waiting, complete, opening, strict};
use fitting::Rule;
use lines::Line;

// A line of a record's sequence, which begins at `at`.
fn judge_line(rule: Rule, d: Opened, so_far: SoFar, at: usize, x: Line, last: bool) -> Out
    requires { FitsIn d so_far at x }
    ensures { result ≡ line_out rule d so_far at x last }
{
    match rule {
        Rule::Strict => strict::judge_strict(d, so_far, at, x, last),
        Rule::Complete => complete::judge_complete(d, so_far, at, x, last),
    }
}

// Judges the line that waits, by what the feeder awaits, and whether the sequence ends behind it.
pub(crate) fn judge(rule: Rule, phase: Phase, t: Waiting, last: bool) -> Out
    requires { SmallPhase (2 ^ 60) phase × SmallWaiting t × (t.width < 2 ^ 60) }
    ensures { result ≡ out_of rule phase t last }
{
    match phase {
        Phase::Definition(at) => opening::judge_definition(rule, at, t, last),
        Phase::Lines(d, so_far, at) => judge_line(
            rule,
            d,
            so_far,
            at,
            Line {
                width: t.width,
                bases: t.bases,
            },
            last,
        ),
        Phase::Halted(n) => Out::Keeps(Phase::Halted(n)),
        Phase::Ended => Out::Keeps(Phase::Ended),
    }
}

// Puts a row that a line gives in the table, behind those that are written.
pub(crate) fn settle(out: Out, rows: usize, table: &mut [u8]) -> Settled
    ensures { SettleDone out rows table.old result table.new }
{
    match out {
        Out::Keeps(phase) => Settled { phase, rows },
        Out::Emits(x, next) => match table::bytes::store(table, rows, x) {
            Ok(()) => Settled {
                phase: Phase::Definition(next),
                rows: rows + 1,
            },
            Err(f) => Settled {
                phase: Phase::Halted(refusal::Numbers::from(f)),
                rows,
            },
        },
    }
}
