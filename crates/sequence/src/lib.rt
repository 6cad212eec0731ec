// Sequences by the scanning rule: from a place, skip a run of CR and LF, stop at '>' or at the end, take the line without its LF
// and one final CR, and so on until the wanted number of bases is reached. Reads refuse a file that is too long, and then an
// output that is too short for the bases, which stays as it was.
#![tactic(auto)]

pub mod reader;

ghost use Rattle.std.specs.Prelude.{◌≤◌, ◌≡◌, length, leb};
ghost use Rattle.sequence.specs.Scan.{ends_line, skip_to, run_at, scan_at};
ghost use Rattle.output.specs.Outcome.{leaves};
ghost use Rattle.sequence.specs.Read.{written, scan_into, read_limit, read_whole, read_run};
ghost use Rattle.sequence.specs.Laws.{piece_at};

use lines::{Cursor, Span};
use refusal::Refusal;

// Is a byte a CR or an LF.
#[tactic(auto, unfolding(crate::specs::Scan::ends_line))]
fn ends_line(b: u8) -> bool
    ensures { result ≡ ends_line b }
{
    matches!(b, b'\r' | b'\n')
}

// The place behind the CR and LF that stand at `at`.
fn skip_ends(s: &[u8], at: usize) -> usize
    ensures { result ≡ skip_to s.now at }
{
    // `for i in at..s.len()` was tried: a read takes 129 instructions a line of 60, and 118 of this.
    let mut i = at;
    while i < s.len() {
        if !ends_line(s[i]) {
            return i;
        }
        i += 1;
    }
    i
}

// One step of the scanning rule from `at`: where its bases begin, and how many they are; none at '>' or the end.
#[tactic(auto, unfolding(crate::specs::Scan::run_at))]
pub(crate) fn next_run(s: &[u8], at: usize) -> Span
    ensures { result ≡ run_at s.now at }
{
    let start = skip_ends(s, at);
    let line = lines::sequence_line(s, start);
    Span {
        start,
        length: line.bases,
    }
}

// One step that gives at most `limit` bases.
fn next_piece(s: &[u8], at: usize, limit: usize) -> Span
    ensures { result ≡ piece_at s.now limit at }
{
    let run = next_run(s, at);
    Span {
        length: run.length.min(limit),
        ..run
    }
}

// How many bases a scan for `limit` of them gives.
// Its `while` counts no index: each piece tells where the next begins. `copy_bases` walks in the same way, and what both share is `next_piece`.
fn count_bases(s: &[u8], at: usize, limit: usize) -> usize
    ensures { result ≡ length (scan_at s.now limit at).bases }
{
    let mut n = 0;
    let mut i = at;
    while n < limit {
        let piece = next_piece(s, i, limit - n);
        if piece.length == 0 {
            return n;
        }
        n += piece.length;
        i = piece.start + piece.length;
    }
    n
}

// Do the bases of a scan for `limit` of them fit in so many bytes.
fn has_room(s: &[u8], at: usize, limit: usize, room: usize) -> bool
    ensures { result ≡ leb (length (scan_at s.now limit at).bases) room }
{
    limit <= room || count_bases(s, at, limit) <= room
}

// Copies the bases of a scan for `limit` of them to the front of the output, which has room for them.
fn copy_bases(s: &[u8], at: usize, limit: usize, out: &mut [u8]) -> Result<(usize, Cursor), Refusal>
    requires { length (scan_at s.now limit at).bases ≤ length out.old }
    ensures { leaves result out.new ≡ written (scan_at s.now limit at) out.old }
{
    let mut to = 0;
    let mut i = at;
    while to < limit {
        let piece = next_piece(s, i, limit - to);
        let start = piece.start;
        let taken = piece.length;
        if taken == 0 {
            return Ok((to, Cursor { at: start }));
        }
        copying::copy_run(s, start, taken, out, to);
        to += taken;
        i = start + taken;
    }
    Ok((to, Cursor { at: i }))
}

// Scans for at most `limit` bases from `at`, into the front of the output; the bytes behind them stay. The file's size is not judged.
#[tactic(auto, unfolding(crate::specs::Read::scan_into, crate::specs::Read::poured))]
pub fn scan_into(
    s: &[u8],
    at: usize,
    limit: usize,
    out: &mut [u8],
) -> Result<(usize, Cursor), Refusal>
    ensures { leaves result out.new ≡ scan_into s.now limit at out.old }
{
    if !has_room(s, at, limit, out.len()) {
        let needed = count_bases(s, at, limit);
        return Err(Refusal::NoRoom {
            needed: needed as u64,
        });
    }
    copy_bases(s, at, limit, out)
}

// Reads at most `limit` bases from a place. A limit of 0 moves nothing, and a place past the end stays as it is. It walks the file once,
// or twice if the output has fewer than `limit` bytes.
#[tactic(auto, unfolding(crate::specs::Read::read_limit, crate::specs::Read::scan_into))]
pub fn read_sequence_limit(
    s: &[u8],
    at: Cursor,
    limit: usize,
    out: &mut [u8],
) -> Result<(usize, Cursor), Refusal>
    ensures { leaves result out.new ≡ read_limit s.now limit at out.old }
{
    if refusal::over_limit(s.len()) {
        return Err(Refusal::TooLong);
    }
    scan_into(s, at.at, limit, out)
}

// Reads all the bases from a place up to '>' or the end.
#[tactic(auto, unfolding(crate::specs::Read::read_whole, crate::specs::Read::scan_into, crate::specs::Scan::scan_all))]
pub fn read_sequence(s: &[u8], at: Cursor, out: &mut [u8]) -> Result<(usize, Cursor), Refusal>
    ensures { leaves result out.new ≡ read_whole s.now at out.old }
{
    if refusal::over_limit(s.len()) {
        return Err(Refusal::TooLong);
    }
    scan_into(s, at.at, s.len() + 1, out)
}

// Where the bases of one step from a place are.
#[tactic(auto, unfolding(crate::specs::Read::read_run))]
pub fn read_run(s: &[u8], at: Cursor) -> Result<Span, Refusal>
    ensures { result ≡ read_run s.now at }
{
    if refusal::over_limit(s.len()) {
        return Err(Refusal::TooLong);
    }
    Ok(reader::first_run(s, at.at))
}
