// A line of a sequence by the ported rule. Refuses a first line without bases (5), and lines that are not like the first (6, 7).
ghost use Rattle.std.specs.Prelude.{◌≡◌, ◌+◌, ◌<◌, ◌^◌};
ghost use Rattle.feeder.specs.Machine.{first_out, further_out, strict_out};
ghost use Rattle.feeder.specs.Small.{FitsIn, RowFits};

use crate::{Opened, Out, Phase, SoFar, opening};
use fitting::Numbers;
use lines::Line;
use refusal::Refusal;

// The ported rule: a record's first sequence line.
fn judge_first(d: Opened, at: usize, x: Line, last: bool) -> Out
    requires { RowFits d × (at + x.width < 2 ^ 63) }
    ensures { result ≡ first_out d at x last }
{
    let next = at + x.width;
    if x.bases == 0 {
        return opening::halted(Refusal::NoBases {
            offset: next as u64,
        });
    }
    let n = Numbers {
        position: at,
        bases: x.bases,
        width: x.width,
    };
    if last {
        return Out::Emits(opening::row(d, n, x.bases), next);
    }
    Out::Keeps(Phase::Lines(d, SoFar::Rows(n, x.bases), next))
}

// A further one, behind so many bases.
fn judge_further(d: Opened, n: Numbers, count: usize, at: usize, x: Line, last: bool) -> Out
    requires { RowFits d × (at + x.width < 2 ^ 63) × (count + x.bases < 2 ^ 63) }
    ensures { result ≡ further_out d n count at x last }
{
    let first = Line {
        width: n.width,
        bases: n.bases,
    };
    if indexer::fits(last, x, first) {
        return Out::Emits(opening::row(d, n, count + x.bases), at + x.width);
    }
    if x.bases != n.bases {
        return opening::halted(Refusal::LineBases {
            found: x.bases as u64,
            expected: n.bases as u64,
        });
    }
    if x.width != n.width {
        return opening::halted(Refusal::LineWidth {
            found: x.width as u64,
            expected: n.width as u64,
        });
    }
    Out::Keeps(Phase::Lines(d, SoFar::Rows(n, count + x.bases), at + x.width))
}

// The ported rule.
// It stands beside `judge_complete`: two rules with refusals of their own, chosen by the rule that a host named.
pub(crate) fn judge_strict(d: Opened, so_far: SoFar, at: usize, x: Line, last: bool) -> Out
    requires { FitsIn d so_far at x }
    ensures { result ≡ strict_out d so_far at x last }
{
    match so_far {
        SoFar::Blank => judge_first(d, at, x, last),
        SoFar::Run(n) => judge_further(d, n, n.bases, at, x, last),
        SoFar::Rows(n, count) => judge_further(d, n, count, at, x, last),
    }
}
