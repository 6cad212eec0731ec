// reads: reads bases 2,001 to 12,000 of a record, so that the instructions of an exact read and of a window read can be counted as
// differences of runs (tools/dev instruction-goals). Standard input, at most 65,536 bytes, is one byte that says how, and then the record's
// lines of 60 bases: `e`, by the exact read; `w`, from the window of all bytes from 1,000 on; anything else, not at all. It writes its
// room of 65,536 bytes in each case: a room that nobody reads, the compiler would not write. Nothing of an input below 1,000 bytes.
// A read or a write that fails ends the program.
#![tactic(auto)]

use record::{Offset, Position, Record};
use refusal::Numbers;
use std::io;

const MOST: usize = 65536;

// Where the window begins.
const WINDOW: usize = 1000;

// Reads as the first byte says, and writes the room, or why there is nothing in it.
fn read(rt: &impl Print, file: &[u8]) -> io::Result<()> {
    let Some(window) = file.get(WINDOW..) else {
        return Ok(());
    };
    let row = Ok((0, Record::unnamed(12000, Offset(1), 60, 61)));
    let start = Some(Position(2001));
    let end = Some(Position(12000));
    let mut out = [0u8; MOST];
    let read = match file[0] {
        b'e' => region::read_exact(file, row, start, end, &mut out),
        b'w' => {
            let at = Offset(WINDOW as u64);
            region::read_window(file.len(), window, at, row, start, end, &mut out)
        }
        _ => Ok(0),
    };
    match read {
        Ok(_) => rt.write_all(&out),
        Err(why) => rt.print(Numbers::from(why).refusal),
    }
}

fn main(rt: HostRuntime) -> io::Result<()> {
    let mut room = [0u8; MOST];
    let n = reading::fill(&mut rt.reader(), &mut room)?;
    read(&rt, &room[..n])
}
