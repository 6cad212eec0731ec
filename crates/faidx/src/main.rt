// faidx [FILE ..]: writes the index of FASTA, of at most 65,536 bytes and 1,024 records, to standard output: a line for each record,
// and for a refusal one line, as `refused 6 0 4`, behind those of the records before it. Longer input gives only `refused 1 0 0`.
// It reads standard input, or each file named; `-` is standard input. A file that does not open is named on standard error, and the next
// one follows. A read or a write that fails ends the program.
#![tactic(auto)]

use fitting::Rule;
use reading::Name;
use refusal::{Numbers, Refusal};
use std::env::{Env, FillError};
use std::io;
use std::io::Read;
use std::rt::Files;

const MOST_BYTES: usize = 65536;

const MOST_RECORDS: usize = 1024;

// The name of a record is at most all of the input, and the rest of its line is 85 bytes.
const LONGEST_LINE: usize = MOST_BYTES + 128;

const LONGEST_PATH: usize = 4096;

// Writes the line of a refusal.
fn say_refused(rt: &impl Print, why: Refusal) -> io::Result<()> {
    let told = Numbers::from(why);
    println!(rt; "refused {} {} {}", told.refusal, told.first, told.second)
}

// Writes the index of some FASTA.
fn index(rt: &impl Print, fasta: &[u8]) -> io::Result<()> {
    let mut table = [0u64; MOST_RECORDS * table::WORDS];
    let mut line = [0u8; LONGEST_LINE];
    let told = fitting::index_file(fasta, &mut table, Rule::Strict);
    for row in 0..told.rows {
        let written = index_line::write_line(fasta, table::row(&table, told.rows, row), &mut line);
        match written {
            Ok(n) => rt.write_all(line.get(..n).unwrap_or(b""))?,
            Err(why) => say_refused(rt, why)?,
        }
    }
    match told.stop {
        Ok(()) => Ok(()),
        Err(why) => say_refused(rt, why),
    }
}

// Reads some FASTA, and writes its index. The room has one byte more than is taken, which only a longer input fills.
fn list<R: Read>(rt: &impl Print, from: &mut R) -> io::Result<()> {
    let mut room = [0u8; MOST_BYTES + 1];
    let n = reading::fill(from, &mut room)?;
    if n > MOST_BYTES {
        return say_refused(rt, Refusal::TooLong);
    }
    index(rt, &room[..n])
}

// Writes the index of the file of a name.
fn list_named(rt: &(impl Files + Input + Print + Eprint + Alloc), name: &[u8]) -> io::Result<()> {
    if name == b"-".as_slice() {
        return list(rt, &mut rt.reader());
    }
    let name = Name(name);
    match name.open(rt) {
        Ok(mut file) => list(rt, &mut file),
        Err(why) => eprintln!(rt; "{}", name.failure(rt.alloc(), &why)?),
    }
}

// Writes the index of each file that is named, or of standard input where none is. A name that is too long for a path counts as empty.
fn list_all(rt: &(impl Env + Files + Input + Print + Eprint + Alloc)) -> io::Result<()> {
    let mut room = [0u8; LONGEST_PATH];
    for i in 1..usize::MAX {
        match rt.arg(i, &mut room) {
            Ok(n) => list_named(rt, &room[..n])?,
            Err(FillError::TooLong) => list_named(rt, b"")?,
            Err(FillError::NotPresent) if i == 1 => return list(rt, &mut rt.reader()),
            Err(FillError::NotPresent) => break,
        }
    }
    Ok(())
}

fn main(rt: HostRuntime) -> io::Result<()> {
    list_all(&rt)
}
