// wraps: writes the bytes of standard input, at most 65,536, as the bases of a record, in lines of as many bases as the first byte says,
// so that the instructions a line takes can be counted as the difference of two runs (tools/dev instructions). Nothing of an empty input.
// A read or a write that fails ends the program.
#![tactic(auto)]

use refusal::Numbers;
use std::io;

const MOST: usize = 65536;

// Writes some bases in lines of a width.
fn write(rt: &impl Print, bases: &[u8], width: u8) -> io::Result<()> {
    let mut out = [0u8; MOST];
    match writer::write_record(b"s", false, b"", bases, usize::from(width), &mut out) {
        Ok(n) => rt.write_all(out.get(..n).unwrap_or(b"")),
        Err(why) => rt.print(Numbers::from(why).refusal),
    }
}

fn main(rt: HostRuntime) -> io::Result<()> {
    let mut room = [0u8; MOST];
    let n = reading::fill(&mut rt.reader(), &mut room)?;
    let bases = &room[..n];
    match bases.first() {
        Some(&width) => write(&rt, bases, width),
        None => Ok(()),
    }
}
