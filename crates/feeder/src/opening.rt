// A definition line opens a record; and the row of a record. Refuses a bad definition line (2 to 4), and by the ported rule a record without
// sequence lines (5).
ghost use Rattle.std.specs.Prelude.{◌≡◌, ◌+◌, ◌<◌, ◌^◌};
ghost use Rattle.refusal.specs.Numbers as told;
ghost use Rattle.indexer.specs.LineSums.{sum_says};
ghost use Rattle.feeder.specs.Waiting.{unpack};
ghost use Rattle.feeder.specs.Machine.{row_of, close_alone, definition_out};
ghost use Rattle.feeder.specs.Small.{SmallWaiting, RowFits};

use crate::{Opened, Out, Phase, SoFar, Waiting, growing};
use fitting::{Numbers, Rule};
use lines::Line;
use record::Record;
use refusal::Refusal;

// The row of a record with so many bases, by its numbers.
pub(crate) fn row(d: Opened, n: Numbers, count: usize) -> Record
    requires { RowFits d }
    ensures { result ≡ row_of d n count }
{
    let line = Line {
        width: n.width,
        bases: n.bases,
    };
    indexer::row_for(d.at, d.said, count, n.position, line)
}

// The row of a record without bases.
pub(crate) fn row_alone(d: Opened) -> Record
    requires { RowFits d }
    ensures { result ≡ row_of d (record { position = d.end; bases = 1; width = 2 }) 0 }
{
    let n = Numbers {
        position: d.end,
        bases: 1,
        width: 2,
    };
    row(d, n, 0)
}

// Nothing more, but a refusal.
pub(crate) fn halted(f: Refusal) -> Out
    ensures { result ≡ Out.Keeps (Phase.Halted (told.numbers_of f)) }
{
    Out::Keeps(Phase::Halted(refusal::Numbers::from(f)))
}

// A record without sequence lines.
fn close_alone(rule: Rule, d: Opened) -> Out
    requires { RowFits d }
    ensures { result ≡ close_alone rule d }
{
    match rule {
        Rule::Strict => halted(Refusal::NoBases {
            offset: d.end as u64,
        }),
        Rule::Complete => Out::Emits(row_alone(d), d.end),
    }
}

// A definition line, which begins at `at`.
pub(crate) fn judge_definition(rule: Rule, at: usize, t: Waiting, last: bool) -> Out
    requires { (at + t.width < 2 ^ 62) × SmallWaiting t }
    ensures { result ≡ definition_out rule at t.width last (sum_says (unpack t)) }
{
    match growing::says(t) {
        Err(f) => halted(f.refusal((at + f.place()) as u64, 0)),
        Ok(said) => {
            let d = Opened {
                at,
                end: at + t.width,
                said,
            };
            if last {
                return close_alone(rule, d);
            }
            Out::Keeps(Phase::Lines(d, SoFar::Blank, at + t.width))
        }
    }
}
