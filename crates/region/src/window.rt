// Reading from a window: some bytes of a file, and the offset where they begin. A region is judged for the whole file first, as the exact
// read judges it; then each of its bases must lie in the window; then the exact read's walk copies it. What a region needs is judged in the
// same way, and answered as a part of the file.
ghost use Rattle.std.specs.Prelude.{◌≡◌, ◌+◌, ◌≤◌, ◌<◌, false, length, ltb};
ghost use Rattle.refusal.specs.Numbers.{over_limit};
ghost use Rattle.output.specs.Outcome.{leaves};
ghost use Rattle.region.specs.Region.{bad_bounds, start_of, end_of};
ghost use Rattle.region.specs.Exact.{offsets_of};
ghost use Rattle.region.specs.Judge.{region_judged};
ghost use Rattle.region.specs.Window.{seen_at, window_region, needed_by};
ghost use Rattle.region.specs.WindowLaws.{Judged-in};

use crate::exact::Bases;
use crate::{Part, bounds, exact, inside};
use record::{Offset, Position, Record};
use refusal::Refusal;

// Does a window of so many bytes from an offset on pass the end of a file of so many.
pub(crate) fn passes_end(bytes: usize, window: usize, from: Offset) -> bool
    ensures { result ≡ ltb bytes (from.0 + window) }
{
    bytes < window || ((bytes - window) as u64) < from.0
}

// The part that a window of so many bytes is.
fn seen(window: usize, from: usize) -> Part
    requires { (from ≤ 1099511627776) × (window ≤ 1099511627776) }
    ensures { result ≡ record { from = record { 0 = from }; to = record { 0 = from + window } } }
{
    Part {
        from: Offset(from as u64),
        to: Offset((from + window) as u64),
    }
}

// Reads judged bases from base `first` on.
fn read_seen(
    window: &[u8],
    from: usize,
    x: Record,
    first: Position,
    bases: Bases,
    out: &mut [u8],
) -> Result<usize, Refusal>
    requires judged_in { Judged-in x first.0 bases.at bases.run bases.count }
    requires from_bound { (from ≤ 1099511627776) × (length window.now ≤ 1099511627776) }
    requires n_in_bounds { bases.count ≤ length out.old }
    ensures { leaves result out.new ≡ seen_at from window.now first.0 (offsets_of x first.0 bases.count) out.old }
{
    let n = bases.count;
    let covered = inside::count_in(seen(window.len(), from), x, first, n);
    if covered < n {
        let base = first.0 + covered as u64;
        return Err(Refusal::NotInWindow { base });
    }
    let here = Bases {
        at: bases.at - from,
        ..bases
    };
    exact::copy_bases(window, x, here, out);
    Ok(n)
}

// Reads a region of a record from a window of a file of so many bytes, by bounds that are not bad.
pub(crate) fn read_region(
    bytes: usize,
    window: &[u8],
    from: usize,
    x: Record,
    start: Option<Position>,
    end: Option<Position>,
    out: &mut [u8],
) -> Result<usize, Refusal>
    requires line_bases_nonzero { (0 < x.line_bases) × (0 < x.line_width) × (bad_bounds start end ≡ false) }
    requires from_bound { (from ≤ 1099511627776) × (length window.now ≤ 1099511627776) }
    ensures { leaves result out.new ≡ window_region bytes from window.now x (start_of start) (end_of x.length end) out.old }
{
    let bases = exact::judge_region(bytes, x, start, end, out.len())?;
    read_seen(window, from, x, bounds::first_base(start), bases, out)
}

// The part of a file of so many bytes that a region of a record needs, by bounds that are not bad.
pub(crate) fn needed_region(
    bytes: usize,
    room: usize,
    x: Record,
    start: Option<Position>,
    end: Option<Position>,
) -> Result<Part, Refusal>
    requires line_bases_nonzero { (0 < x.line_bases) × (0 < x.line_width) × (bad_bounds start end ≡ false) }
    requires bytes_bound { bytes ≤ 1099511627776 }
    ensures { result ≡ needed_by x (start_of start) (region_judged bytes x (start_of start) (end_of x.length end) room) }
{
    let bases = exact::judge_region(bytes, x, start, end, room)?;
    Ok(inside::part_of(x, bounds::first_base(start), bases.count))
}
