// The walk over a record's lines, beside the strides that the numbers of its index line describe: how many bases there are, and whether
// each lies where those numbers say. The lines that are strides, from the first on, are passed at once, and those behind them one by one.
// No division, and no sum or product that may not fit. `quick` tells of even lines without that walk.
#![tactic(auto)]

pub mod quick;

ghost use Rattle.std.specs.Prelude.{◌≡◌, ◌+◌, ◌-◌, ◌^◌, ◌≤◌, ◌<◌, eqb};
ghost use Rattle.lines.specs.Lines.{seq_at};
ghost use Rattle.record.specs.Place.{place_of, place_in};
ghost use Rattle.walking.specs.Places.{walked_as};
ghost use Rattle.walking.specs.Walk.{LineJudged, MovedOn, WalkedLine, Onward};
ghost use Rattle.walking.specs.Strides.{strides_here};

use lines::Line;
use record::{Offset, Position, Record};

// The strides that the numbers of an index line describe: where the first begins, and how many bases and bytes each has. There is a byte between
// one and the next, or one has all the bases there can be.
#[derive(Clone, Copy)]
struct Layout {
    start: Offset,
    bases: u64,
    width: u64,
    ghost some: { 0 < bases },
    ghost apart: { width ≡ bases → 2 ^ 64 - 1 ≤ bases },
}

// The stride of the next base: where it begins, and how many of its bases are passed. A stride that would begin past the largest
// offset begins there.
#[derive(Clone, Copy)]
struct Stride {
    start: Offset,
    passed: u64,
}

// A part of a sequence: how many bases it has, where they are, and the stride behind them.
#[derive(Clone, Copy)]
struct Walk {
    bases: u64,
    placed: Option<(Position, Offset)>,
    stride: Stride,
}

// A walk that goes on at an offset.
#[derive(Clone, Copy)]
struct Begun {
    walk: Walk,
    next: usize,
}

// A whole sequence: how many bases it has, where they are, and the offset behind it.
#[derive(Clone, Copy)]
pub struct Walked {
    pub bases: u64,
    pub placed: Option<(Position, Offset)>,
    pub next: usize,
}

// Is `at` where the stride has its next base.
fn is_next(stride: Stride, at: Offset) -> bool
    ensures { result ≡ eqb at.0 (stride.start.0 + stride.passed) }
{
    if at.0 < stride.start.0 {
        return false;
    }
    at.0 - stride.start.0 == stride.passed
}

// One line's bases, which lie from `at` on, behind `before` others.
fn judge_line(
    layout: Layout,
    stride: Stride,
    before: u64,
    at: Offset,
    bases: u64,
) -> Option<(Position, Offset)>
    requires { (stride.passed < layout.bases) × (before ≤ at.0) × (at.0 + bases < 2 ^ 64) }
    ensures { LineJudged stride layout.bases before at bases result }
{
    if bases == 0 {
        return None;
    }
    if is_next(stride, at) {
        let left = layout.bases - stride.passed;
        if bases <= left {
            return None;
        }
        return Some((Position(before + left + 1), Offset(at.0 + left)));
    }
    Some((Position(before + 1), at))
}

// The stride behind some bases, which end in this stride.
fn moved_on(layout: Layout, stride: Stride, bases: u64) -> Stride
    requires { stride.passed < layout.bases }
    ensures { MovedOn stride layout.bases layout.width bases result }
{
    if bases < layout.bases - stride.passed {
        return Stride {
            passed: stride.passed + bases,
            ..stride
        };
    }
    Stride {
        start: Offset(stride.start.0.saturating_add(layout.width)),
        passed: 0,
    }
}

// One line more: its bases lie from `at` on.
fn walk_line(layout: Layout, walk: Walk, at: Offset, bases: u64) -> Walk
    requires { (walk.stride.passed < layout.bases) × (walk.bases ≤ at.0) × (at.0 + bases < 2 ^ 64) }
    ensures { WalkedLine layout.bases layout.width walk at bases result }
{
    let placed = walk.placed;
    let stride = walk.stride;
    let all = walk.bases + bases;
    match placed {
        Some((p, o)) => Walk {
            bases: all,
            placed: Some((p, o)),
            stride,
        },
        None => {
            let here = judge_line(layout, stride, walk.bases, at, bases);
            let next = moved_on(layout, stride, bases);
            Walk {
                bases: all,
                placed: here,
                stride: next,
            }
        }
    }
}

// How many lines from `at` on are strides, the first of which begins at `start`. None is where strides have no byte between them, or where
// the first begins elsewhere.
fn strides_here(s: &[u8], at: usize, layout: Layout) -> usize
    ensures { result ≡ strides_here s.now at layout.start.0 layout.bases layout.width }
{
    if layout.start.0 != at as u64 {
        return 0;
    }
    if layout.width <= layout.bases {
        return 0;
    }
    let stride = Line {
        width: layout.width as usize,
        bases: layout.bases as usize,
    };
    lines::alike::lines_like(s, at, stride)
}

// The walk over the lines from `at` on that are strides: each of their bases is where the numbers say.
fn pass_strides(s: &[u8], at: usize, layout: Layout) -> Begun
    ensures { Onward s.now at layout.start.0 layout.bases layout.width result.next result.walk }
{
    let strides = strides_here(s, at, layout) as u64;
    let bases = strides * layout.bases;
    let bytes = strides * layout.width;
    Begun {
        walk: Walk {
            bases,
            placed: None,
            stride: Stride {
                start: Offset(layout.start.0 + bytes),
                passed: 0,
            },
        },
        next: at + bytes as usize,
    }
}

// The sequence from `at` on, against these strides.
// Its `while` counts no index: each line tells where the next begins.
fn walk_strides(s: &[u8], at: usize, layout: Layout) -> Walked
    ensures { result ≡ walked_as (place_of layout.start.0 layout.bases layout.width) at (seq_at s.now at) }
{
    let begun = pass_strides(s, at, layout);
    let mut walk = begun.walk;
    let mut i = begun.next;
    while !lines::sequence_ends(s, i) {
        let e = lines::ends::line_end(s, i);
        let bases = lines::base_count(&s[i..e]);
        walk = walk_line(layout, walk, Offset(i as u64), bases as u64);
        i = e;
    }
    let placed = walk.placed;
    Walked {
        bases: walk.bases,
        placed,
        next: i,
    }
}

// The sequence from `at` on, against a record. Strides with no byte between them are one stride, and strides that no base ends are too.
pub fn walk_sequence(s: &[u8], at: usize, x: Record) -> Walked
    ensures { result ≡ walked_as (place_in x) at (seq_at s.now at) }
{
    let (start, width) = (x.position, x.line_width);
    if x.line_bases == 0 || x.line_width == x.line_bases {
        let bases = u64::MAX;
        return walk_strides(
            s,
            at,
            Layout {
                start,
                bases,
                width,
            },
        );
    }
    let bases = x.line_bases;
    walk_strides(
        s,
        at,
        Layout {
            start,
            bases,
            width,
        },
    )
}
