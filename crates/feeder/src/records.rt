// Records that lie whole in a piece, with the first byte of the next: their rows are written at once, with no state between their lines. The
// lines are alike, except the last, which may be shorter; both rules give such a record the same row. Any other record goes line by line,
// and so does one for which the table has no room.
ghost use Rattle.std.specs.Prelude.{◌+◌, ◌≤◌, ◌<◌, ◌^◌, ◌≡◌, length, IfSome};
ghost use Rattle.feeder.specs.Records.{may_end, SequenceAt};
ghost use Rattle.feeder.specs.Turns.{RecordDone, RecordsDone};

use crate::{Opened, Reached, Sequence, opening};
use fitting::Numbers;
use lines::Line;

// May a line be the last of some lines that are alike.
fn may_end(l: Line, first: Line) -> bool
    ensures { result ≡ may_end l first }
{
    (0 < l.bases) & (l.bases <= first.bases) & (l.width <= first.width)
}

// Does it look as if many lines like the first follow it. Then the record's end may not have come, and `taking` passes the lines at once. It
// is only a guess, and so promises nothing. A '>' in front of one of the next three lines means short records whose definition lines are as
// wide as their lines of bases.
fn is_long(p: &[u8], i: usize, first: Line) -> bool
    requires { (i ≤ length p.now) × (length p.now ≤ 2 ^ 40) × (first.width ≤ length p.now) × (0 < first.width) }
{
    let far = i + 128 * first.width;
    if p.len() <= far {
        return false;
    }
    if p[i] == b'>' {
        return false;
    }
    if p[i + first.width] == b'>' {
        return false;
    }
    if p[i + 2 * first.width] == b'>' {
        return false;
    }
    (p[far - 1] == b'\n')
        & (p[far - 1 - 32 * first.width] == b'\n')
        & (p[far - 1 - 96 * first.width] == b'\n')
}

// The sequence from `e` on.
fn whole_sequence(p: &[u8], e: usize) -> Option<Sequence>
    requires { (e ≤ length p.now) × (length p.now ≤ 2 ^ 40) }
    ensures { IfSome result (SequenceAt p.now e) }
{
    let first = lines::sequence_line(p, e);
    if first.bases == 0 {
        return None;
    }
    let i = e + first.width;
    if is_long(p, i, first) {
        return None;
    }
    let k = lines::alike::lines_like(p, i, first);
    let j = i + k * first.width;
    let n = first.bases + k * first.bases;
    if p.len() <= j {
        return None;
    }
    if p[j] == b'>' {
        return Some(Sequence {
            line: first,
            bases: n,
            next: j,
        });
    }
    let last = lines::sequence_line(p, j);
    let m = j + last.width;
    if p.len() <= m {
        return None;
    }
    if p[m] != b'>' {
        return None;
    }
    if may_end(last, first) {
        return Some(Sequence {
            line: first,
            bases: n + last.bases,
            next: m,
        });
    }
    None
}

// Takes the record from `i` on, which begins at `at` in the file: writes its row, and answers where the next begins. Or leaves it: `i`.
// No Option is plainer: `RecordDone` speaks of the place in both cases, and the one caller compares places.
fn take_record(at: usize, rows: usize, p: &[u8], i: usize, table: &mut [u8]) -> usize
    requires { (i < length p.now) × (length p.now ≤ 2 ^ 40) × (at ≤ 2 ^ 42) }
    ensures { RecordDone at rows p.now i table.old result table.new }
{
    let e = lines::ends::line_end(p, i);
    let Ok(said) = definition::parse_line(&p[i..e]) else {
        return i;
    };
    let Some(s) = whole_sequence(p, e) else {
        return i;
    };
    let end = at + (e - i);
    let n = Numbers {
        position: end,
        bases: s.line.bases,
        width: s.line.width,
    };
    let x = opening::row(Opened { at, end, said }, n, s.bases);
    match table::bytes::store(table, rows, x) {
        Ok(()) => s.next,
        Err(_) => i,
    }
}

// The records from `i` on, one after another.
pub(crate) fn take_records(at: usize, rows: usize, p: &[u8], i: usize, table: &mut [u8]) -> Reached
    requires { (i < length p.now) × (length p.now ≤ 2 ^ 40) × (at + length p.now ≤ 2 ^ 42 + i) }
    ensures { RecordsDone at rows p.now i table.old result table.new }
{
    let mut r = Reached {
        next: at,
        rows,
        at: i,
    };
    // rows are counted beside the place, which no range gives: each record tells where the next begins
    loop {
        let e = take_record(r.next, r.rows, p, r.at, table);
        if e == r.at {
            return r;
        }
        r = Reached {
            next: r.next + (e - r.at),
            rows: r.rows + 1,
            at: e,
        };
    }
}
