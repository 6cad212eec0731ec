// Bases in a part of a file, by numbers alone: whether all of some bases lie in it, how many do up to the first that does not, and the
// smallest part that has them all. Each line of a region begins and ends further on than the line before, even if lines overlap. So the
// lowest base is the first of the region or the first of its second line, and the highest is the last of the region or the last of the line
// before: if these four lie in a part, all do. Example: line bases 4, line width 2, position 0. Bases 2 to 9 lie at 1 2 3, 2 3 4 5, 4. The
// four are bases 2, 5, 9 and 8, at 1, 2, 4 and 5.
ghost use Rattle.std.specs.Prelude.{◌≡◌, ◌+◌, ◌-◌, ◌%◌, ◌^◌, ◌≤◌, ◌<◌, min, max, leb};
ghost use Rattle.record.specs.Place.{place_in};
ghost use Rattle.region.specs.Exact.{offsets_of};
ghost use Rattle.region.specs.Inside.{Addressable};
ghost use Rattle.region.specs.Part.{is_in, in_part, part_of, LieIn};
ghost use Rattle.region.specs.PartLaws.{second_line, line_before};

use crate::Part;
use record::{Offset, Position, Record};

// The smaller of what is left of a line and what is left of a region.
pub(crate) fn shorter(line: u64, left: usize) -> usize
    ensures { result ≡ min left line }
{
    line.min(left as u64) as usize
}

// How many of `left` bases from base `p` on are in one line, as the record has it.
pub(crate) fn in_line(x: Record, p: Position, left: usize) -> usize
    requires { (0 < x.line_bases) × (0 < p.0) }
    ensures { result ≡ min left (x.line_bases - (p.0 - 1) % x.line_bases) }
{
    let bases = x.line_bases;
    shorter(bases - (p.0 - Record::FIRST) % bases, left)
}

// How many of `left` bases up to base `p` are in its line.
fn in_line_to(x: Record, p: Position, left: usize) -> usize
    requires { (0 < x.line_bases) × (0 < p.0) }
    ensures { result ≡ min left ((p.0 - 1) % x.line_bases + 1) }
{
    shorter((p.0 - Record::FIRST) % x.line_bases + 1, left)
}

// The offset of base `p`, which is known to fit.
pub(crate) fn offset_in(x: Record, p: Position) -> usize
    requires { (0 < x.line_bases) × (0 < x.line_width) × (0 < p.0) × (place_in x (p.0 - 1) < 2 ^ 64) }
    ensures { result ≡ place_in x (p.0 - 1) }
{
    let Some(o) = x.offset_of(p) else {
        return 0;
    };
    o.0 as usize
}

// Does base `p` lie in a part.
fn is_in(part: Part, x: Record, p: Position) -> bool
    requires { (0 < x.line_bases) × (0 < x.line_width) × (0 < p.0) }
    ensures { result ≡ is_in part.from.0 part.to.0 (place_in x (p.0 - 1)) }
{
    let Some(o) = x.offset_of(p) else {
        return false;
    };
    part.from.0 <= o.0 && o.0 < part.to.0
}

// The first base of the second line of `n` bases from base `a` on; `a` if they are in one line.
fn second_line(x: Record, a: Position, n: usize) -> Position
    requires { Addressable x a.0 n }
    ensures { result ≡ record { 0 = second_line x a.0 n } }
{
    let run = in_line(x, a, n);
    if run < n {
        return Position(a.0 + run as u64);
    }
    a
}

// The last base of the line before that of base `last`, of `n` bases up to it; `last` if they are in one line.
fn line_before(x: Record, last: Position, n: usize) -> Position
    requires { (0 < x.line_bases) × (0 < n) × (n ≤ last.0) }
    ensures { result ≡ record { 0 = line_before x last.0 n } }
{
    let run = in_line_to(x, last, n);
    if run < n {
        return Position(last.0 - run as u64);
    }
    last
}

// The last of `n` bases from base `a` on.
fn last_of(a: Position, n: usize) -> Position
    requires { (0 < n) × (a.0 + n ≤ 2 ^ 64) }
    ensures { result ≡ record { 0 = a.0 + (n - 1) } }
{
    Position(a.0 + (n as u64 - 1))
}

// Do all of `n` bases from base `a` on lie in a part.
fn all_in(part: Part, x: Record, a: Position, n: usize) -> bool
    requires { Addressable x a.0 n }
    ensures { result ≡ leb n (in_part part.from.0 part.to.0 (offsets_of x a.0 n)) }
{
    let last = last_of(a, n);
    is_in(part, x, a)
        && is_in(part, x, last)
        && is_in(part, x, second_line(x, a, n))
        && is_in(part, x, line_before(x, last, n))
}

// How many of `n` bases from base `a` on lie in a part, up to the first that does not, by halving: the first `low` of them all do, and the
// first `high` do not all.
fn count_to(part: Part, x: Record, a: Position, n: usize) -> usize
    requires addressable { Addressable x a.0 n }
    requires n_bound { in_part part.from.0 part.to.0 (offsets_of x a.0 n) < n }
    ensures { result ≡ in_part part.from.0 part.to.0 (offsets_of x a.0 n) }
{
    let mut low = 0;
    let mut high = n;
    // a search by halves counts no index, and there is no slice to call `partition_point` of
    while 1 < high - low {
        let middle = low + (high - low) / 2;
        if all_in(part, x, a, middle) {
            low = middle;
        } else {
            high = middle;
        }
    }
    low
}

// How many of `n` bases from base `a` on lie in a part, up to the first that does not.
pub(crate) fn count_in(part: Part, x: Record, a: Position, n: usize) -> usize
    requires { Addressable x a.0 n }
    ensures { result ≡ in_part part.from.0 part.to.0 (offsets_of x a.0 n) }
{
    if all_in(part, x, a, n) {
        return n;
    }
    count_to(part, x, a, n)
}

// The part from the lowest of `n` bases from base `a` on to the highest, which all lie before some offset.
pub(crate) fn part_of(x: Record, a: Position, n: usize) -> Part
    requires addressable { Addressable x a.0 n }
    requires lie_in { LieIn 0 (2 ^ 63) x a.0 n }
    ensures { result ≡ part_of (offsets_of x a.0 n) }
{
    let last = last_of(a, n);
    let from = offset_in(x, a).min(offset_in(x, second_line(x, a, n)));
    let to = offset_in(x, last).max(offset_in(x, line_before(x, last, n)));
    Part {
        from: Offset(from as u64),
        to: Offset(to as u64 + 1),
    }
}
