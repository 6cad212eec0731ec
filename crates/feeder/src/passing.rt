// Passes lines that are alike at once. A line that is like the record's first, and begins where the next base should lie, is fine by either
// rule; so are those like it behind it.
ghost use Rattle.std.specs.Prelude.{◌≡◌, ◌+◌, ◌≤◌, ◌<◌, ◌^◌, length};
ghost use Rattle.feeder.specs.Small.{Fits};
ghost use Rattle.feeder.specs.Passing.{same_line, EvenLines, PassDone};

use crate::{Fed, Phase, SoFar, Turn, Waiting, complete};
use fitting::Numbers;
use lines::Line;

// Is a line that waits a whole one, with so many bytes and bases, and no definition.
fn is_same(t: Waiting, n: Numbers) -> bool
    ensures { result ≡ same_line t n }
{
    t.whole
        & !t.starts
        & (t.width == n.width)
        & (t.bases == n.bases)
        & (t.name == 0)
        & (t.text == 0)
        & (t.kept == 0)
}

// How many lines from `i` on are like the one that waits, where that is like those of some rows, and its first base, behind `count` others,
// lies where the rows say.
fn even_lines(n: Numbers, count: usize, at: usize, t: Waiting, p: &[u8], i: usize) -> usize
    requires { (0 < n.bases) × (0 < n.width) }
    ensures { 0 < result → EvenLines n count at t p.now i result }
{
    if !is_same(t, n) {
        return 0;
    }
    let k = lines::alike::lines_like(
        p,
        i,
        Line {
            width: n.width,
            bases: n.bases,
        },
    );
    if count % n.bases != 0 {
        return 0;
    }
    if complete::is_place(n, count, at) {
        return k;
    }
    0
}

// Passes the lines from `i` on that are like the one that waits.
pub(crate) fn pass_alike(f: Fed, p: &[u8], i: usize) -> Turn
    requires { (i ≤ length p.now) × (length p.now ≤ 2 ^ 40) × Fits (2 ^ 41 + i) f }
    ensures { PassDone f p.now i result.fed result.at }
{
    let Phase::Lines(d, so_far, at) = f.phase else {
        return Turn { fed: f, at: i };
    };
    let SoFar::Rows(n, count) = so_far else {
        return Turn { fed: f, at: i };
    };
    let k = even_lines(n, count, at, f.waiting, p, i);
    if k == 0 {
        return Turn { fed: f, at: i };
    }
    let rows = SoFar::Rows(n, count + k * n.bases);
    let fed = Fed {
        phase: Phase::Lines(d, rows, at + k * n.width),
        ..f
    };
    Turn {
        fed,
        at: i + k * n.width,
    }
}
