// replay: asks this library the questions of a fixed list, the file `answers` of its folder data/, and holds each answer against the
// original's (noodles-fasta 0.68.0), which stands beside it. For each family it writes a line, as `idx 1500 answers, 0 differ`, where
// one differs with the number of the first, from 0; and then the same of all. data/README.md says how the list was made. A list that does
// not open is named on standard error. A read or a write that fails ends the program.
#![tactic(auto)]

mod family;
mod list;

use family::{FAMILIES, Family};
use list::Record;
use reading::Name;
use std::io::Read;
use std::rt::Files;
use std::{fmt, io};

// A record of the list is at most as long, and so is what it lends.
const LONGEST: usize = 4096;

// How many answers were compared, how many differ, and the number of the first that does.
#[derive(Clone, Copy)]
struct Tally {
    answers: u64,
    differ: u64,
    first: Option<u64>,
}

impl fmt::Display for Tally {
    fn fmt<W: fmt::Write>(&self, f: &mut fmt::Formatter<W>) -> fmt::Result {
        let Tally {
            answers,
            differ,
            first,
        } = self;
        match first {
            Some(first) => write!(f, "{answers} answers, {differ} differ, first {first}"),
            None => write!(f, "{answers} answers, {differ} differ"),
        }
    }
}

impl Tally {
    fn of(answers: u64) -> Tally {
        Tally {
            answers,
            differ: 0,
            first: None,
        }
    }

    // The tally of two families; no one number says the first that differs.
    fn and(self, other: Tally) -> Tally {
        Tally {
            answers: self.answers.saturating_add(other.answers),
            differ: self.differ.saturating_add(other.differ),
            first: None,
        }
    }
}

// Reads the next record, and answers whether its question has the original's answer. Where the list ends too early, what is left of the
// record before stands for the rest.
fn replay_next<R: Read>(
    from: &mut R,
    family: Family,
    record: &mut [u8],
    room: &mut [u8],
) -> io::Result<bool> {
    let mut length = [0u8; 2];
    reading::fill(from, &mut length)?;
    let Some(record) = record.get_mut(..usize::from(u16::from_le_bytes(length))) else {
        return Ok(false);
    };
    reading::fill(from, record)?;
    Ok(family.alike(&Record::new(record), room))
}

// Replays the answers of a family.
fn replay_family<R: Read>(
    from: &mut R,
    family: Family,
    record: &mut [u8],
    room: &mut [u8],
) -> io::Result<Tally> {
    let mut count = [0u8; 4];
    reading::fill(from, &mut count)?;
    let count = u64::from(u32::from_le_bytes(count));
    let mut tally = Tally::of(count);
    for number in 0..count {
        if !replay_next(from, family, record, room)? {
            tally.differ = tally.differ.saturating_add(1);
            tally.first = tally.first.or(Some(number));
        }
    }
    Ok(tally)
}

// Replays the answers of every family.
fn replay<R: Read>(rt: &impl Print, from: &mut R) -> io::Result<()> {
    let mut record = [0u8; LONGEST];
    let mut room = [0u8; LONGEST];
    let mut all = Tally::of(0);
    for (family, name) in FAMILIES {
        let tally = replay_family(from, family, &mut record, &mut room)?;
        println!(rt; "{name} {tally}")?;
        all = all.and(tally);
    }
    println!(rt; "in all {all}")
}

// Replays the list of a name.
fn replay_named(rt: &(impl Files + Print + Eprint + Alloc), name: Name) -> io::Result<()> {
    match name.open(rt) {
        Ok(mut file) => replay(rt, &mut file),
        Err(why) => eprintln!(rt; "{}", name.failure(rt.alloc(), &why)?),
    }
}

fn main(rt: HostRuntime) -> io::Result<()> {
    replay_named(&rt, Name(b"answers"))
}
