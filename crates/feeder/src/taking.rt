// Takes the bytes of a piece: each line behind what waits, and then the lines like it at once.
ghost use Rattle.std.specs.Prelude.{◌≡◌, ◌+◌, ◌≤◌, ◌<◌, ◌^◌, length};
ghost use Rattle.lines.specs.Lines.{part};
ghost use Rattle.feeder.specs.Machine.{AbsorbDone, FeedDone};
ghost use Rattle.feeder.specs.Passing.{TurnDone};
ghost use Rattle.feeder.specs.Turns.{no_bytes, ReadyDone, WholeDone};
ghost use Rattle.feeder.specs.Small.{SmallWaiting, SmallPhase, Fits};

use crate::{Fed, Phase, Turn, Waiting, growing, judging, passing, records};
use fitting::Rule;

// Takes the bytes of one line, from `i` to `e` of a piece, behind what waits: a whole line is judged, and these bytes wait; an open one grows.
fn absorb(rule: Rule, f: Fed, p: &[u8], i: usize, e: usize, table: &mut [u8]) -> Fed
    requires { (i < e) × (e ≤ length p.now) × (length p.now ≤ 2 ^ 41) × SmallPhase (2 ^ 60) f.phase × SmallWaiting f.waiting × (f.waiting.width < 2 ^ 60) }
    ensures { AbsorbDone rule f (part p.now i e) table.old result table.new }
{
    if f.waiting.whole {
        let out = judging::judge(rule, f.phase, f.waiting, p[i] == b'>');
        let s = judging::settle(out, f.rows, table);
        let waiting = growing::grown(growing::no_line(), &p[i..e]);
        return Fed {
            phase: s.phase,
            rows: s.rows,
            waiting,
        };
    }
    let waiting = growing::grown(f.waiting, &p[i..e]);
    Fed { waiting, ..f }
}

// The line from `i` on, and the lines behind it that are like it.
// The fact of these three is about the piece, the place and what is kept at once, and changes with each turn: a struct would be made anew by each call.
fn take_line(rule: Rule, f: Fed, p: &[u8], i: usize, table: &mut [u8]) -> Turn
    requires { (i < length p.now) × (length p.now ≤ 2 ^ 40) × Fits (2 ^ 41 + i) f }
    ensures { (i < result.at) × TurnDone rule f p.now i table.old result.fed result.at table.new }
{
    let e = lines::ends::line_end(p, i);
    let g = absorb(rule, f, p, i, e, table);
    passing::pass_alike(g, p, e)
}

// Judges a whole line that waits and ends its sequence: the next byte is '>'.
fn ready(rule: Rule, f: Fed, table: &mut [u8]) -> Fed
    requires { SmallPhase (2 ^ 60) f.phase × SmallWaiting f.waiting × (f.waiting.width < 2 ^ 60) }
    ensures { ReadyDone rule f table.old result table.new }
{
    if f.waiting.whole {
        let out = judging::judge(rule, f.phase, f.waiting, true);
        let s = judging::settle(out, f.rows, table);
        return Fed {
            phase: s.phase,
            rows: s.rows,
            waiting: growing::no_line(),
        };
    }
    f
}

// Is there no byte of a line that waits.
fn is_clear(t: Waiting) -> bool
    ensures { result ≡ no_bytes t }
{
    !t.whole
        & !t.starts
        & (t.width == 0)
        & (t.bases == 0)
        & (t.name == 0)
        & (t.text == 0)
        & (t.kept == 0)
}

// Takes records that lie whole in the piece from `i` on, if the feeder awaits a definition and no line waits.
fn take_whole(f: Fed, p: &[u8], i: usize, table: &mut [u8]) -> Turn
    requires { (i < length p.now) × (length p.now ≤ 2 ^ 40) × Fits (2 ^ 41 + i) f }
    ensures { WholeDone f p.now i table.old result.fed result.at table.new }
{
    if !is_clear(f.waiting) {
        return Turn { fed: f, at: i };
    }
    let Phase::Definition(at) = f.phase else {
        return Turn { fed: f, at: i };
    };
    let r = records::take_records(at, f.rows, p, i, table);
    let fed = Fed {
        phase: Phase::Definition(r.next),
        rows: r.rows,
        ..f
    };
    Turn { fed, at: r.at }
}

// Whole records from `i` on; or else a line, and those that are like it.
fn turn(rule: Rule, f: Fed, p: &[u8], i: usize, table: &mut [u8]) -> Turn
    requires { (i < length p.now) × (length p.now ≤ 2 ^ 40) × Fits (2 ^ 41 + i) f }
    ensures { (i < result.at) × TurnDone rule f p.now i table.old result.fed result.at table.new }
{
    if p[i] != b'>' {
        return take_line(rule, f, p, i, table);
    }
    let g = ready(rule, f, table);
    let t = take_whole(g, p, i, table);
    if i < t.at {
        return t;
    }
    take_line(rule, t.fed, p, i, table)
}

// A piece, from its first byte to its last.
pub(crate) fn absorb_lines(rule: Rule, f: Fed, p: &[u8], table: &mut [u8]) -> Fed
    requires { (length p.now ≤ 2 ^ 40) × Fits (2 ^ 41) f }
    ensures { FeedDone rule f p.now table.old result table.new }
{
    let mut fed = f;
    let mut i = 0;
    // no index is counted: a turn goes on behind its lines or its records
    while i < p.len() {
        let t = turn(rule, fed, p, i, table);
        fed = t.fed;
        i = t.at;
    }
    fed
}
