// Entry points of a file that is indexed while it arrives. What a feeder keeps between two calls goes to the host as a struct of numbers, and
// comes back by value. Whatever numbers a host hands back, the call is total and touches nothing but the table.
ghost use Rattle.std.specs.Prelude.{◌≡◌};
ghost use Rattle.table.specs.Numbers.{numbers_in};
ghost use Rattle.output.specs.Outcome.{leaves};
ghost use Rattle.feeder.specs.Calls.{begun_by, piece_of, end_of};
ghost use Rattle.wakeluri.specs.Feeding.{rule_by, rule_number, waiting_by, opened_by, numbers_by, so_far_by, phase_by, feeder_by, flat_of, lines_told, feed_told, no_opened, no_numbers, call_told};

use crate::answer;
use definition::Definition;
use feeder::{Feeder, Opened, Phase, SoFar, Waiting};
use fitting::{Numbers, Rule};
use lines::Span;

// A file on its way. The refusal that stands, 0 for none, and the rows that are written; behind them what the next call goes on from.
#[repr(C)]
#[derive(Clone, Copy)]
pub struct Feed {
    pub refusal: u64,
    pub first: u64,
    pub second: u64,
    pub rows: u64,
    pub complete: u64,
    pub total: u64,
    pub stage: u64,
    pub next: u64,
    pub at: u64,
    pub end: u64,
    pub name_start: u64,
    pub name_length: u64,
    pub description_start: u64,
    pub description_length: u64,
    pub lines: u64,
    pub position: u64,
    pub line_bases: u64,
    pub line_width: u64,
    pub bases: u64,
    pub waiting_width: u64,
    pub waiting_bases: u64,
    pub waiting_whole: u64,
    pub waiting_starts: u64,
    pub waiting_name: u64,
    pub waiting_text: u64,
    pub waiting_kept: u64,
}

// The rule by its number: 0 for the original's, else the complete one.
// No From: it would have to stand beside `Rule`, in a crate that knows no number of a host.
pub(crate) fn rule_by(n: u64) -> Rule
    ensures { result ≡ rule_by n }
{
    if n == 0 {
        return Rule::Strict;
    }
    Rule::Complete
}

// The number of a rule.
fn rule_number(rule: Rule) -> u64
    ensures { result ≡ rule_number rule }
{
    match rule {
        Rule::Strict => 0,
        Rule::Complete => 1,
    }
}

// The line that waits.
impl From<Feed> for Waiting {
    ghost from_gives = { λ f told. told ≡ waiting_by f };

    #[tactic(auto, unfolding(crate::specs::Feeding::waiting_by))]
    fn from(f: Feed) -> Waiting {
        Waiting {
            width: f.waiting_width as usize,
            bases: f.waiting_bases as usize,
            whole: f.waiting_whole != 0,
            starts: f.waiting_starts != 0,
            name: f.waiting_name as usize,
            text: f.waiting_text as usize,
            kept: f.waiting_kept as usize,
        }
    }
}

// The record whose lines are awaited.
impl From<Feed> for Opened {
    ghost from_gives = { λ f told. told ≡ opened_by f };

    fn from(f: Feed) -> Opened {
        Opened {
            at: f.at as usize,
            end: f.end as usize,
            said: Definition {
                name: Span {
                    start: f.name_start as usize,
                    length: f.name_length as usize,
                },
                description: Span {
                    start: f.description_start as usize,
                    length: f.description_length as usize,
                },
            },
        }
    }
}

impl From<Feed> for Numbers {
    ghost from_gives = { λ f told. told ≡ numbers_by f };

    fn from(f: Feed) -> Numbers {
        Numbers {
            position: f.position as usize,
            bases: f.line_bases as usize,
            width: f.line_width as usize,
        }
    }
}

// Its lines so far.
impl From<Feed> for SoFar {
    ghost from_gives = { λ f told. told ≡ so_far_by f };

    #[tactic(auto, unfolding(crate::specs::Feeding::so_far_by))]
    fn from(f: Feed) -> SoFar {
        if f.lines == 0 {
            return SoFar::Blank;
        }
        if f.lines == 1 {
            return SoFar::Run(Numbers::from(f));
        }
        SoFar::Rows(Numbers::from(f), f.bases as usize)
    }
}

// What is awaited.
impl From<Feed> for Phase {
    ghost from_gives = { λ f told. told ≡ phase_by f };

    #[tactic(auto, unfolding(crate::specs::Feeding::phase_by))]
    fn from(f: Feed) -> Phase {
        if f.stage == 0 {
            return Phase::Definition(f.next as usize);
        }
        if f.stage == 1 {
            return Phase::Lines(Opened::from(f), SoFar::from(f), f.next as usize);
        }
        if f.stage == 2 {
            return Phase::Halted(refusal::Numbers {
                refusal: f.refusal,
                first: f.first,
                second: f.second,
            });
        }
        Phase::Ended
    }
}

impl From<Feed> for Feeder {
    ghost from_gives = { λ f told. told ≡ feeder_by f };

    fn from(f: Feed) -> Feeder {
        let rule = rule_by(f.complete);
        let phase = Phase::from(f);
        let waiting = Waiting::from(f);
        Feeder {
            rule,
            total: f.total as usize,
            rows: f.rows as usize,
            phase,
            waiting,
        }
    }
}

// A record's lines so far, as numbers.
#[derive(Clone, Copy)]
struct Told {
    lines: u64,
    numbers: Numbers,
    bases: usize,
}

fn no_numbers() -> Numbers
    ensures { result ≡ no_numbers }
{
    Numbers {
        position: 0,
        bases: 0,
        width: 0,
    }
}

fn no_opened() -> Opened
    ensures { result ≡ no_opened }
{
    let said = Definition {
        name: answer::no_span(),
        description: answer::no_span(),
    };
    Opened {
        at: 0,
        end: 0,
        said,
    }
}

impl From<SoFar> for Told {
    ghost from_gives = { λ so_far told. told ≡ lines_told so_far };

    #[tactic(auto, unfolding(crate::specs::Feeding::lines_told))]
    fn from(so_far: SoFar) -> Told {
        match so_far {
            SoFar::Blank => Told {
                lines: 0,
                numbers: no_numbers(),
                bases: 0,
            },
            SoFar::Run(n) => Told {
                lines: 1,
                numbers: n,
                bases: 0,
            },
            SoFar::Rows(n, count) => Told {
                lines: 2,
                numbers: n,
                bases: count,
            },
        }
    }
}

// The struct, field by field.
fn flat(f: Feeder, n: refusal::Numbers, stage: u64, next: usize, d: Opened, t: Told) -> Feed
    ensures { result ≡ flat_of f n stage next d t }
{
    let rule = f.rule;
    let waiting = f.waiting;
    let said = d.said;
    let name = said.name;
    let text = said.description;
    let numbers = t.numbers;
    Feed {
        refusal: n.refusal,
        first: n.first,
        second: n.second,
        rows: f.rows as u64,
        complete: rule_number(rule),
        total: f.total as u64,
        stage,
        next: next as u64,
        at: d.at as u64,
        end: d.end as u64,
        name_start: name.start as u64,
        name_length: name.length as u64,
        description_start: text.start as u64,
        description_length: text.length as u64,
        lines: t.lines,
        position: numbers.position as u64,
        line_bases: numbers.bases as u64,
        line_width: numbers.width as u64,
        bases: t.bases as u64,
        waiting_width: waiting.width as u64,
        waiting_bases: waiting.bases as u64,
        waiting_whole: u64::from(waiting.whole),
        waiting_starts: u64::from(waiting.starts),
        waiting_name: waiting.name as u64,
        waiting_text: waiting.text as u64,
        waiting_kept: waiting.kept as u64,
    }
}

// A feeder as a host holds it.
impl From<Feeder> for Feed {
    ghost from_gives = { λ f told. told ≡ feed_told f };

    #[tactic(auto, unfolding(crate::specs::Feeding::feed_told))]
    fn from(f: Feeder) -> Feed {
        let phase = f.phase;
        match phase {
            Phase::Definition(at) => flat(
                f,
                answer::fine(),
                0,
                at,
                no_opened(),
                Told::from(SoFar::Blank),
            ),
            Phase::Lines(d, so_far, at) => flat(f, answer::fine(), 1, at, d, Told::from(so_far)),
            Phase::Halted(n) => flat(f, n, 2, 0, no_opened(), Told::from(SoFar::Blank)),
            Phase::Ended => flat(
                f,
                answer::fine(),
                3,
                0,
                no_opened(),
                Told::from(SoFar::Blank),
            ),
        }
    }
}

// The start of a file that is indexed as it arrives: by the original's rule for 0, else by the complete one.
pub fn wakeluri_feed_start(complete: u64) -> Feed
    ensures { result ≡ feed_told (begun_by (rule_by complete)) }
{
    Feed::from(Feeder::start(rule_by(complete)))
}

// The next bytes of the file.
pub fn wakeluri_feed_piece(feed: Feed, piece: &[u8], table: &mut [u8]) -> Feed
    ensures { leaves result table.new ≡ call_told (piece_of (feeder_by feed) piece.now (numbers_in table.old)) table.old }
{
    let f = Feeder::from(feed);
    let g = f.piece(piece, table);
    Feed::from(g)
}

// The end of the file.
pub fn wakeluri_feed_end(feed: Feed, table: &mut [u8]) -> Feed
    ensures { leaves result table.new ≡ call_told (end_of (feeder_by feed) (numbers_in table.old)) table.old }
{
    let f = Feeder::from(feed);
    let g = f.end(table);
    Feed::from(g)
}
