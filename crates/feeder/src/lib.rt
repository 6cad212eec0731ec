// The indexer fed with a file while it arrives, in any pieces, by the ported or the complete rule. Between two pieces a feeder keeps numbers
// and no bytes: what it awaits, how many rows are written, and of the line that waits for its next byte the width, the bases and where a
// name and a description lie in it. It judges a line, and writes a row, once the line's LF and the next byte, or the end, have come. A
// refusal stays: each later call only repeats it. Refuses bytes or a second end behind a good end (26), a piece that brings the file over
// the size limit (1), and what indexing the file refuses (2 to 8, 42). It also refuses a state that no call leaves (1).
#![tactic(auto)]

mod complete;
mod growing;
mod judging;
mod opening;
mod passing;
mod records;
mod sound;
mod strict;
mod taking;

ghost use Rattle.std.specs.Prelude.{◌≡◌};
ghost use Rattle.feeder.specs.Calls as calls;
ghost use Rattle.table.specs.Numbers.{numbers_in};
ghost use Rattle.feeder.specs.Calls.{begun_by, refused_by, live, still_stopped, kept_by, piece_of, closed_by, end_of, CallDone, refusal_in};

use definition::Definition;
use fitting::{Numbers, Rule};
use lines::Line;
use record::Record;
use refusal::Refusal;

// A line that waits for its next byte, by numbers: its bytes and its bases, whether its LF has come, whether it begins with '>'. If it does:
// how many bytes of a name follow, the place behind the name and its whitespace, and how many bytes there are up to the last that is no
// whitespace. Else these are 0.
#[derive(Clone, Copy)]
pub struct Waiting {
    pub width: usize,
    pub bases: usize,
    pub whole: bool,
    pub starts: bool,
    pub name: usize,
    pub text: usize,
    pub kept: usize,
}

// A record whose definition line has been read: where the line begins, where it ends, and what it says.
#[derive(Clone, Copy)]
pub struct Opened {
    pub at: usize,
    pub end: usize,
    pub said: Definition,
}

// The sequence lines of a record so far: none with a base; one run of bases, by its offset, its bases and its line's width; or rows, by
// position, line bases and line width, with how many bases they have.
#[derive(Clone, Copy)]
pub enum SoFar {
    Blank,
    Run(Numbers),
    Rows(Numbers, usize),
}

// What the feeder awaits: a definition at an offset; a line of a record's sequence, at an offset; nothing, behind a refusal or the end.
#[derive(Clone, Copy)]
pub enum Phase {
    Definition(usize),
    Lines(Opened, SoFar, usize),
    Halted(refusal::Numbers),
    Ended,
}

// What a line gives: what to await next; or a row, and the offset behind its record.
#[derive(Clone, Copy)]
enum Out {
    Keeps(Phase),
    Emits(Record, usize),
}

// What the feeder awaits, and how many rows are written.
#[derive(Clone, Copy)]
struct Settled {
    phase: Phase,
    rows: usize,
}

// What the feeder awaits, how many rows are written, and the line that waits.
#[derive(Clone, Copy)]
struct Fed {
    phase: Phase,
    rows: usize,
    waiting: Waiting,
}

// What a part of a piece leaves, and where the piece goes on.
#[derive(Clone, Copy)]
struct Turn {
    fed: Fed,
    at: usize,
}

// The sequence of a record that lies whole in a piece: its first line, its bases, and where the next record begins.
#[derive(Clone, Copy)]
struct Sequence {
    line: Line,
    bases: usize,
    next: usize,
}

// Where the next record begins in the file, how many rows are written, and where the piece goes on.
#[derive(Clone, Copy)]
struct Reached {
    next: usize,
    rows: usize,
    at: usize,
}

// A file on its way: the rule, how many bytes have come, how many rows are written, what to await, and the line that waits.
#[derive(Clone, Copy)]
pub struct Feeder {
    pub rule: Rule,
    pub total: usize,
    pub rows: usize,
    pub phase: Phase,
    pub waiting: Waiting,
}

// Does a feeder take bytes.
#[tactic(auto, unfolding(crate::specs::Calls::live))]
fn is_live(phase: Phase) -> bool
    ensures { result ≡ live phase }
{
    matches!(phase, Phase::Definition(_) | Phase::Lines(..))
}

// A feeder that takes no more bytes.
fn stopped(rule: Rule, rows: usize, phase: Phase) -> Feeder
    ensures { result ≡ calls.stopped rule rows phase }
{
    Feeder {
        rule,
        total: 0,
        rows,
        phase,
        waiting: growing::no_line(),
    }
}

fn refused(f: Feeder, x: Refusal) -> Feeder
    ensures { result ≡ refused_by f x }
{
    stopped(f.rule, f.rows, Phase::Halted(refusal::Numbers::from(x)))
}

// A feeder that takes no bytes, given some, or the end.
fn still_stopped(f: Feeder) -> Feeder
    ensures { result ≡ still_stopped f f.phase }
{
    match f.phase {
        Phase::Ended => refused(f, Refusal::AlreadyEnded),
        _ => f,
    }
}

// What the lines of a piece leave.
fn kept(rule: Rule, total: usize, f: Fed) -> Feeder
    ensures { result ≡ kept_by rule total f.phase f.rows f.waiting }
{
    match f.phase {
        Phase::Halted(n) => stopped(rule, f.rows, Phase::Halted(n)),
        _ => Feeder {
            rule,
            total,
            rows: f.rows,
            phase: f.phase,
            waiting: f.waiting,
        },
    }
}

// What the end leaves.
fn closed(rule: Rule, s: Settled) -> Feeder
    ensures { result ≡ closed_by rule s.phase s.rows }
{
    match s.phase {
        Phase::Halted(n) => stopped(rule, s.rows, Phase::Halted(n)),
        _ => stopped(rule, s.rows, Phase::Ended),
    }
}

// No refusal: its number is 0 for C.
fn no_refusal() -> refusal::Numbers
    ensures { result ≡ record { refusal = 0; first = 0; second = 0 } }
{
    refusal::Numbers {
        refusal: 0,
        first: 0,
        second: 0,
    }
}

impl Feeder {
    // The start of a file, by a rule.
    pub fn start(rule: Rule) -> Self
        ensures { result ≡ begun_by rule }
    {
        Feeder {
            rule,
            total: 0,
            rows: 0,
            phase: Phase::Definition(0),
            waiting: growing::no_line(),
        }
    }

    // The next bytes of the file, which may be none.
    pub fn piece(self, p: &[u8], table: &mut [u8]) -> Self
        ensures { CallDone (piece_of self p.now (numbers_in table.old)) table.old result table.new }
    {
        if p.len() == 0 {
            return self;
        }
        if !is_live(self.phase) {
            return still_stopped(self);
        }
        if !sound::is_sound(self) {
            return refused(self, Refusal::TooLong);
        }
        if refusal::LIMIT - self.total < p.len() {
            return refused(self, Refusal::TooLong);
        }
        let f = Fed {
            phase: self.phase,
            rows: self.rows,
            waiting: self.waiting,
        };
        let g = taking::absorb_lines(self.rule, f, p, table);
        kept(self.rule, self.total + p.len(), g)
    }

    // The end of the file.
    pub fn end(self, table: &mut [u8]) -> Self
        ensures { CallDone (end_of self (numbers_in table.old)) table.old result table.new }
    {
        if !is_live(self.phase) {
            return still_stopped(self);
        }
        if !sound::is_sound(self) {
            return refused(self, Refusal::TooLong);
        }
        if self.waiting.width == 0 {
            let left = Settled {
                phase: self.phase,
                rows: self.rows,
            };
            return closed(self.rule, left);
        }
        let out = judging::judge(self.rule, self.phase, self.waiting, true);
        closed(self.rule, judging::settle(out, self.rows, table))
    }

    // The refusal that stands; its number is 0 for none.
    pub fn refusal(self) -> refusal::Numbers
        ensures { result ≡ refusal_in self.phase }
    {
        match self.phase {
            Phase::Halted(n) => n,
            _ => no_refusal(),
        }
    }
}
