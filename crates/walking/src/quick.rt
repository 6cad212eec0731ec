// The fast way over a sequence whose lines are even: strides, a last line that has no more bases, and blank lines. It is told without a walk from line to line, so that
// its numbers stay at hand. What is not told so is for `walk_sequence`.
ghost use Rattle.std.specs.Prelude.{◌≡◌, ◌+◌, ◌≤◌, ◌<◌, IfSome, length};
ghost use Rattle.walking.specs.Even.{EvenTo, StridesPassed, BlankTo};

use lines::Line;

// How many lines from `at` on are strides, and come before the last of a sequence of `all` bases. Example: 130 bases in strides of 60 have two before the last; 60
// bases have none.
fn strides_before(s: &[u8], at: usize, all: usize, bases: usize, width: usize) -> usize
    requires { (at ≤ length s.now) × (0 < bases) × (bases < width) }
    ensures { StridesPassed s.now at bases width result }
{
    if all <= bases {
        return 0;
    }
    let most = (all - 1) / bases;
    lines::alike::lines_like_up_to(s, at, Line { width, bases }, b'>', most)
}

// The offset behind the blank lines from `at` on, if they end the sequence. Most sequences have none.
// Its `while` counts no index: each line tells where the next begins.
fn blank_end(s: &[u8], at: usize) -> Option<usize>
    requires { at ≤ length s.now }
    ensures { IfSome result (BlankTo s.now at) }
{
    let mut i = at;
    while !lines::sequence_ends(s, i) {
        let line = lines::sequence_line(s, i);
        if line.bases != 0 {
            return None;
        }
        i += line.width;
    }
    Some(i)
}

// The offset behind the sequence from `at` on, if it has `all` bases, in strides from there on, a last line that has no more bases than a stride, and blank lines; else
// 0. Example: of ACGT, AC and a '>' with strides of 4 bases and 5 bytes, at + 8 for 6 bases, and 0 for 5.
pub fn even_end(s: &[u8], at: usize, all: usize, bases: usize, width: usize) -> usize
    ensures { 0 < result → EvenTo s.now at all bases width result }
{
    if s.len() < at {
        return 0;
    }
    if bases == 0 {
        return 0;
    }
    if width <= bases {
        return 0;
    }
    let strides = strides_before(s, at, all, bases, width);
    let i = at + strides * width;
    let last = lines::sequence_line(s, i);
    if last.bases == 0 {
        return 0;
    }
    if bases < last.bases {
        return 0;
    }
    if strides * bases + last.bases != all {
        return 0;
    }
    // 0 where it is none, and no Option: docs/PROMISES.md names this function, whose promise says 0.
    blank_end(s, i + last.width).unwrap_or(0)
}
