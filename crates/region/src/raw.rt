// The raw read of a record: a scan from where a region's first base lies.
ghost use Rattle.std.specs.Prelude.{◌≡◌, ◌≤◌, ◌<◌, false, length};
ghost use Rattle.record.specs.Place.{address_of};
ghost use Rattle.output.specs.Outcome.{leaves, pours};
ghost use Rattle.region.specs.Region.{bad_bounds, start_of, end_of};
ghost use Rattle.region.specs.Raw.{scan_to, raw_at};
ghost use Rattle.region.specs.Laws.{limit_of};

use crate::bounds;
use record::{Offset, Position, Record};
use refusal::Refusal;

// For how many bases to scan from `first` on.
fn scan_limit(file: &[u8], first: Position, end: Option<Position>) -> usize
    requires { (0 < first.0) × (first.0 ≤ end_of first.0 end) }
    ensures { result ≡ limit_of (length file.now) first.0 end }
{
    let Some(last) = end else {
        return file.len() + 1;
    };
    (last.0 - first.0 + 1) as usize
}

// Scans from an offset, which is that of base `first`.
fn scan_from(
    file: &[u8],
    at: Offset,
    first: Position,
    end: Option<Position>,
    out: &mut [u8],
) -> Result<usize, Refusal>
    requires { (0 < first.0) × (first.0 ≤ end_of first.0 end) }
    ensures { leaves result out.new ≡ pours (scan_to file.now at.0 first.0 end).bases out.old }
{
    let limit = scan_limit(file, first, end);
    let (count, _) = sequence::scan_into(file, at.0 as usize, limit, out)?;
    Ok(count)
}

// Scans a region of a record, by bounds that are not bad.
pub(crate) fn scan_region(
    file: &[u8],
    x: Record,
    start: Option<Position>,
    end: Option<Position>,
    out: &mut [u8],
) -> Result<usize, Refusal>
    requires { bad_bounds start end ≡ false }
    ensures { leaves result out.new ≡ raw_at file.now (address_of x (record { 0 = start_of start })) (start_of start) end out.old }
{
    let first = bounds::first_base(start);
    let Some(o) = x.offset_of(first) else {
        return Err(Refusal::NotInFile { base: first.0 });
    };
    scan_from(file, o, first, end, out)
}
