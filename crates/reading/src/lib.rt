// What the programs share: a room that is filled from a reader, and the names of files that their arguments have.
#![tactic(auto)]

ghost use Rattle.std.specs.Prelude.{◌≡◌, ◌<◌, ◌≤◌, ◌++◌, length, take, codes, IfOk, IfErr, OnOk, IsUtf8, string_bytes};
ghost use Rattle.std.specs.IoError.{error_kind};
ghost use Rattle.std.specs.declared.io.ErrorKind.TheVariants.{InvalidFilename};
ghost use Rattle.std.specs.Io.{StartsWith};
ghost use Rattle.std.specs.Io.KnownBytes.{Consumes, IsAtEnd};

use std::alloc::{AllocError, Allocator};
use std::io::Read;
use std::rt::Files;
use std::{fs, io, str};

// Reads until a room is full or the input ends, and answers how many bytes were read; they are at the front of the room. After an error it is
// open how many there were.
// Not by `take` and `read_to_end`, which zero a buffer as it grows: what count, wraps and reads measure would grow by that for each byte.
pub fn fill<R: Read>(from: &mut R, room: &mut [u8]) -> io::Result<usize>
    ensures within { IfOk result (λ n. n ≤ length room.new) }
    ensures bytes { IfOk result (λ n. Consumes (R.remaining from.old) (R.remaining from.new) (take n room.new)) }
    ensures all { IfOk result (λ n. n < length room.new → IsAtEnd (R.remaining from.new)) }
    ensures room { length room.new ≡ length room.old }
{
    let mut done = 0;
    while done < room.len() {
        match from.read(&mut room[done..])? {
            0 => break,
            n => done += n,
        }
    }
    Ok(done)
}

// The name of a file as an argument has it: any bytes.
#[derive(Clone, Copy)]
pub struct Name<'a>(pub &'a [u8]);

// The error of a name that is no text.
fn not_text() -> io::Error
    ensures { error_kind result ≡ InvalidFilename }
{
    io::Error::new(io::ErrorKind::InvalidFilename, "not UTF-8")
}

impl Name<'_> {
    // Opens the file, whose name has to be text.
    pub fn open<R: Files>(&self, rt: &R) -> io::Result<R::File>
        ensures ok { OnOk result (IsUtf8 self.now.0.now) }
        ensures not_text { (IsUtf8 self.now.0.now → ⊥) → IfErr result (λ e. error_kind e ≡ InvalidFilename) }
    {
        match str::from_utf8(self.0) {
            Ok(path) => fs::open(rt, path),
            Err(_) => Err(not_text()),
        }
    }

    // What is said of a file that does not open: its name, with the bytes escaped where it is no text, and the system's words without its number.
    pub fn failure<A: Allocator + Clone>(
        &self,
        alloc: A,
        why: &io::Error,
    ) -> Result<String<A>, AllocError>
        ensures { IsUtf8 self.now.0.now → IfOk result (λ line. StartsWith (string_bytes line) (self.now.0.now ++ codes ": ")) }
    {
        let words = format!(in alloc.clone()?; "{why}")?;
        let reason = words
            .split_once(" (os error ")
            .map_or(words.as_str(), |(reason, _)| reason);
        match str::from_utf8(self.0) {
            Ok(path) => format!(in alloc; "{path}: {reason}"),
            Err(_) => format!(in alloc; "{}: {reason}", self.0.escape_ascii()),
        }
    }
}

#[cfg(test)]
mod tests {
    use super::*;
    use std::test::Fail;

    #[test]
    fn fills_a_room(rt: HostRuntime) -> Result<(), Fail> {
        let mut from = b"ACGTNN".as_slice();
        let mut room = [0u8; 4];
        assert_eq!(rt; fill(&mut from, &mut room)?, 4);
        assert_eq!(rt; room, *b"ACGT");
        assert_eq!(rt; fill(&mut from, &mut room)?, 2);
        assert_eq!(rt; room, *b"NNGT");
        assert_eq!(rt; fill(&mut from, &mut room)?, 0);
        Ok(())
    }

    #[test]
    fn says_what_does_not_open(rt: HostRuntime) -> Result<(), Fail> {
        let missing = io::Error::from_raw_os_error(2);
        let said = Name(b"my file.fa").failure(rt.alloc(), &missing)?;
        assert_eq!(rt; said.as_str(), "my file.fa: No such file or directory");
        let said = Name(b"b\xffd").failure(rt.alloc(), &not_text())?;
        assert_eq!(rt; said.as_str(), "b\\xffd: not UTF-8");
        Ok(())
    }
}
