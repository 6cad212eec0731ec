// count [WORK FILE ..]: does each work once on its file, so that the instructions it takes can be counted as the difference of two
// runs (tools/dev instruction-goals). A work is `index`, by the ported rule, `fit`, by the complete one, `arrive`, the
// same in one piece and the end, `check`, with the index on standard
// input, `qualities`, which indexes a FASTQ file, and `verify`, which checks one with the index on standard input, `reverse`, the reverse complement of the whole file, `primer`, the first place of the primer on standard input, `score`, what
// was typed on standard input against the whole file by edition 1, `edition`, by edition 2, or `drill`, the same against bases 1 to
// 10,000 of the file's record s, asked for by an exercise; `twice` scores them once more. It writes a line for each, as `index 1`,
// `fit 1`, `arrive 1` or `qualities 1`, the count of rows, `check 0`, `verify 0`, `primer 3`, the place, or `nothing 0`, `score 490`, or `reverse 60`, the count of bytes, and then
// those bytes: a buffer that nobody reads, the compiler would not write. Where it is refused, `refused 24 3 45`. A file, or what is on
// standard input, has at most 65,536 bytes; what is behind them is not read. A file that does not open is named on standard error, and the
// next work follows. A read or a write that fails ends the program.
#![tactic(auto)]

use feeder::Feeder;
use fitting::Rule;
use reading::Name;
use refusal::{Numbers, Refusal};
use scoring::Score;
use std::env::{Env, FillError};
use std::io;
use std::io::Read;
use std::rt::Files;

const MOST_BYTES: usize = 65536;

const MOST_RECORDS: usize = 1024;

const LONGEST_PATH: usize = 4096;

#[derive(Clone, Copy)]
enum Work {
    Index,
    Fit,
    Arrive,
    Check,
    Qualities,
    Verify,
    Reverse,
    Primer,
    Score,
    Edition,
    Drill,
    Twice,
}

impl Work {
    // The work whose name has this first letter.
    fn of(letter: u8) -> Option<Work> {
        match letter {
            b'i' => Some(Work::Index),
            b'f' => Some(Work::Fit),
            b'a' => Some(Work::Arrive),
            b'c' => Some(Work::Check),
            b'q' => Some(Work::Qualities),
            b'v' => Some(Work::Verify),
            b'r' => Some(Work::Reverse),
            b'p' => Some(Work::Primer),
            b's' => Some(Work::Score),
            b'e' => Some(Work::Edition),
            b'd' => Some(Work::Drill),
            b't' => Some(Work::Twice),
            _ => None,
        }
    }

    // The work that an argument asks for. Of one that is too long for the room, the first bytes are there.
    fn asked(rt: &impl Env, i: usize) -> Option<Work> {
        let mut room = [0u8; LONGEST_PATH];
        let _ = rt.arg(i, &mut room);
        Work::of(room[0])
    }
}

// Writes the line of a work: its name, and its count.
fn say(rt: &impl Print, work: &str, n: u64) -> io::Result<()> {
    println!(rt; "{work} {n}")
}

// Writes the line of a refusal by its numbers.
fn say_told(rt: &impl Print, told: Numbers) -> io::Result<()> {
    println!(rt; "refused {} {} {}", told.refusal, told.first, told.second)
}

// Writes the line of a refusal.
fn say_refused(rt: &impl Print, why: Refusal) -> io::Result<()> {
    say_told(rt, Numbers::from(why))
}

// Indexes a file by a rule.
fn index(rt: &impl Print, work: &str, fasta: &[u8], rule: Rule) -> io::Result<()> {
    let mut table = [0u8; MOST_RECORDS * 8 * table::WORDS];
    let told = fitting::bytes::index_file(fasta, &mut table, rule);
    match told.stop {
        Ok(()) => say(rt, work, told.rows as u64),
        Err(why) => say_refused(rt, why),
    }
}

// Indexes a file that arrives, by the complete rule.
fn arrive(rt: &impl Print, fasta: &[u8]) -> io::Result<()> {
    let mut table = [0u8; MOST_RECORDS * 8 * table::WORDS];
    let fed = Feeder::start(Rule::Complete).piece(fasta, &mut table);
    let ended = fed.end(&mut table);
    let told = ended.refusal();
    if told.refusal == 0 {
        say(rt, "arrive", ended.rows as u64)
    } else {
        say_told(rt, told)
    }
}

// Indexes a FASTQ file.
fn index_qualities(rt: &impl Print, fastq: &[u8]) -> io::Result<()> {
    let mut table = [0u8; MOST_RECORDS * 8 * fastq_table::WORDS];
    let told = fastq_index::index_file(fastq, &mut table);
    match told.stop {
        Ok(()) => say(rt, "qualities", told.rows as u64),
        Err(why) => say_refused(rt, why),
    }
}

// Says what a checker has found.
fn say_verdict(rt: &impl Print, work: &str, verdict: Result<(), Refusal>) -> io::Result<()> {
    match verdict {
        Ok(()) => say(rt, work, 0),
        Err(why) => say_refused(rt, why),
    }
}

// What is on standard input.
fn input<'a>(rt: &impl Input, room: &'a mut [u8]) -> io::Result<&'a [u8]> {
    let n = reading::fill(&mut rt.reader(), room)?;
    Ok(&room[..n])
}

// Checks the index on standard input with its FASTA file.
fn check(rt: &(impl Input + Print), fasta: &[u8]) -> io::Result<()> {
    let mut room = [0u8; MOST_BYTES];
    say_verdict(rt, "check", checker::check(fasta, input(rt, &mut room)?))
}

// Checks the index on standard input with its FASTQ file.
fn verify(rt: &(impl Input + Print), fastq: &[u8]) -> io::Result<()> {
    let mut room = [0u8; MOST_BYTES];
    say_verdict(
        rt,
        "verify",
        fastq_checker::check(fastq, input(rt, &mut room)?),
    )
}

// Complements some bases, from the last to the first.
fn reverse(rt: &impl Print, bases: &[u8]) -> io::Result<()> {
    let mut out = [0u8; MOST_BYTES];
    match complement::reverse_complement(bases, &mut out) {
        Ok(n) => {
            say(rt, "reverse", n as u64)?;
            rt.write_all(out.get(..n).unwrap_or(b""))?;
            println!(rt;)
        }
        Err(why) => say_refused(rt, why),
    }
}

// Finds the primer on standard input in a text.
fn find(rt: &(impl Input + Print), text: &[u8]) -> io::Result<()> {
    let mut room = [0u8; MOST_BYTES];
    match primer::find_next(input(rt, &mut room)?, text, 0) {
        Ok(Some(k)) => say(rt, "primer", k as u64),
        Ok(None) => say(rt, "nothing", 0),
        Err(why) => say_refused(rt, why),
    }
}

// Says a score.
fn say_scored(rt: &impl Print, scored: Result<Score, Refusal>) -> io::Result<()> {
    match scored {
        Ok(s) => say(rt, "score", s.score),
        Err(why) => say_refused(rt, why),
    }
}

// Scores what was typed on standard input against a key.
fn score(rt: &(impl Input + Print), key: &[u8], edition: u64) -> io::Result<()> {
    let mut room = [0u8; MOST_BYTES];
    say_scored(
        rt,
        scoring::score_typed(key, input(rt, &mut room)?, edition),
    )
}

// Scores so many times what was typed on standard input for an exercise about the one record of a file: bases 1 to 10,000 of record s.
fn drill(rt: &(impl Input + Print), file: &[u8], times: usize) -> io::Result<()> {
    let mut table = [0u8; 8 * table::WORDS];
    fitting::bytes::index_file(file, &mut table, Rule::Strict);
    let mut exercise = [0u8; 30];
    // it takes just these 30 bytes
    let _ = exercise::write_exercise(b"s", 1, 10000, 1, &mut exercise);
    let mut typed = [0u8; MOST_BYTES];
    let typed = input(rt, &mut typed)?;
    let mut room = [0u8; MOST_BYTES];
    for _ in 0..times {
        say_scored(
            rt,
            scorer::score_exercise(&exercise, typed, file, file, &table, 1, &mut room),
        )?;
    }
    Ok(())
}

// Does a work on a file.
fn do_on(rt: &(impl Input + Print), work: Work, file: &[u8]) -> io::Result<()> {
    match work {
        Work::Index => index(rt, "index", file, Rule::Strict),
        Work::Fit => index(rt, "fit", file, Rule::Complete),
        Work::Arrive => arrive(rt, file),
        Work::Check => check(rt, file),
        Work::Qualities => index_qualities(rt, file),
        Work::Verify => verify(rt, file),
        Work::Reverse => reverse(rt, file),
        Work::Primer => find(rt, file),
        Work::Score => score(rt, file, 1),
        Work::Edition => score(rt, file, 2),
        Work::Drill => drill(rt, file, 1),
        Work::Twice => drill(rt, file, 2),
    }
}

// Reads a file, and does a work on it, if there is such a work.
fn read_and_do<R: Read>(
    rt: &(impl Input + Print),
    work: Option<Work>,
    from: &mut R,
) -> io::Result<()> {
    let mut room = [0u8; MOST_BYTES];
    let n = reading::fill(from, &mut room)?;
    match work {
        Some(work) => do_on(rt, work, &room[..n]),
        None => Ok(()),
    }
}

// Does a work on the file of a name.
fn do_named(
    rt: &(impl Files + Input + Print + Eprint + Alloc),
    work: Option<Work>,
    name: &[u8],
) -> io::Result<()> {
    let name = Name(name);
    match name.open(rt) {
        Ok(mut file) => read_and_do(rt, work, &mut file),
        Err(why) => eprintln!(rt; "{}", name.failure(rt.alloc(), &why)?),
    }
}

// Does the works of the arguments, each on the file behind it. A name that is too long for a path counts as empty.
fn do_all(rt: &(impl Env + Files + Input + Print + Eprint + Alloc)) -> io::Result<()> {
    let mut room = [0u8; LONGEST_PATH];
    for pair in 1..usize::MAX / 2 {
        let work = Work::asked(rt, 2 * pair - 1);
        match rt.arg(2 * pair, &mut room) {
            Ok(n) => do_named(rt, work, &room[..n])?,
            Err(FillError::TooLong) => do_named(rt, work, b"")?,
            Err(FillError::NotPresent) => break,
        }
    }
    Ok(())
}

fn main(rt: HostRuntime) -> io::Result<()> {
    do_all(&rt)
}
