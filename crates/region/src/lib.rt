// Reads of a region of a sequence, into a lent output: some bases from a start to an end, of a row in use.
// The exact read gives the bytes at the offsets of the region's bases. In this order it refuses: 1, a file that is too long; 16, a
// given bound that is 0, or a start past the end; 25, a bad row; 17, a bound past the record's length; 14, an output that is too
// short; 18, a base that is not in the file, the first of them.
// The raw read scans from where the first base lies, and ignores the record's length: it may run into the next record, and give bytes of
// its definition line. It refuses 1, 16, 25, 18 if the first base's offset is over 64 bits, and 14.
// The window read is the exact read when only some bytes of a file are at hand: it takes the file's length, and the offset where they
// begin. It refuses 1, also for a stated length; 35, a window that passes the stated length; then as the exact read for a file of that
// length; and 34, the first base that is in the file and not in the window. `needed_bytes` answers which bytes a region needs: the smallest
// part of the file that has them, or the refusal that the exact read would give.
// All take a row. A caller with a name looks up its row first with `index::find`, once for all regions of it; specs/Split.antt says what the
// two calls answer together.
// A refusal leaves the output as it was. The bytes behind an answer stay too.
#![tactic(auto)]

pub mod answer;
mod bounds;
mod exact;
mod inside;
mod raw;
mod window;

ghost use Rattle.std.specs.Prelude.{◌≡◌};
ghost use Rattle.table.specs.Rows.{held_of};
ghost use Rattle.output.specs.Outcome.{leaves};
ghost use Rattle.region.specs.Region.{bounded_row};
ghost use Rattle.region.specs.Exact.{exact_held};
ghost use Rattle.region.specs.Raw.{raw_held};
ghost use Rattle.region.specs.Window.{window_held, needed_held};

use record::{Offset, Position, Record};
use refusal::Refusal;

// A part of a file: the bytes from one offset up to another.
#[derive(Clone, Copy)]
pub struct Part {
    pub from: Offset,
    pub to: Offset,
}

// The row that a region is read from, if its bounds are not bad.
fn bounded_row(
    row: Result<(usize, Record), Refusal>,
    start: Option<Position>,
    end: Option<Position>,
) -> Result<Record, Refusal>
    ensures { result ≡ bounded_row start end (held_of row) }
{
    if bounds::bad_bounds(start, end) {
        return Err(Refusal::BadBounds);
    }
    table::held(row)
}

// The exact read: copies the bases of a region of a row to the front of the output.
pub fn read_exact(
    file: &[u8],
    row: Result<(usize, Record), Refusal>,
    start: Option<Position>,
    end: Option<Position>,
    out: &mut [u8],
) -> Result<usize, Refusal>
    ensures { leaves result out.new ≡ exact_held file.now (held_of row) start end out.old }
{
    if refusal::over_limit(file.len()) {
        return Err(Refusal::TooLong);
    }
    let x = bounded_row(row, start, end)?;
    exact::read_region(file, x, start, end, out)
}

// The raw read: scans from where the first base of a region of a row lies, for as many bases as the bounds say, or without limit. It
// ignores the record's length, and may go on into the next record.
// It differs from `read_exact` in its last call; one function that takes that call as a closure is as long as both.
pub fn read_raw(
    file: &[u8],
    row: Result<(usize, Record), Refusal>,
    start: Option<Position>,
    end: Option<Position>,
    out: &mut [u8],
) -> Result<usize, Refusal>
    ensures { leaves result out.new ≡ raw_held file.now (held_of row) start end out.old }
{
    if refusal::over_limit(file.len()) {
        return Err(Refusal::TooLong);
    }
    let x = bounded_row(row, start, end)?;
    raw::scan_region(file, x, start, end, out)
}

// The window read: the exact read of a file of so many bytes, when only those in a window are at hand, which begins at offset `from`.
pub fn read_window(
    bytes: usize,
    window: &[u8],
    from: Offset,
    row: Result<(usize, Record), Refusal>,
    start: Option<Position>,
    end: Option<Position>,
    out: &mut [u8],
) -> Result<usize, Refusal>
    ensures { leaves result out.new ≡ window_held bytes window.now from.0 (held_of row) start end out.old }
{
    if refusal::over_limit(window.len()) {
        return Err(Refusal::TooLong);
    }
    if refusal::over_limit(bytes) {
        return Err(Refusal::TooLong);
    }
    if window::passes_end(bytes, window.len(), from) {
        return Err(Refusal::WindowPastEnd);
    }
    let x = bounded_row(row, start, end)?;
    window::read_region(bytes, window, from.0 as usize, x, start, end, out)
}

// Which bytes of a file of so many the exact read of a region needs, for an output of so much room.
pub fn needed_bytes(
    bytes: usize,
    room: usize,
    row: Result<(usize, Record), Refusal>,
    start: Option<Position>,
    end: Option<Position>,
) -> Result<Part, Refusal>
    ensures { result ≡ needed_held bytes room (held_of row) start end }
{
    if refusal::over_limit(bytes) {
        return Err(Refusal::TooLong);
    }
    let x = bounded_row(row, start, end)?;
    window::needed_region(bytes, room, x, start, end)
}
