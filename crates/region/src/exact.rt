// The exact read of a record: the bytes at the offsets of a region's bases. It judges a region first, by numbers alone, and then copies
// it. It judges room before places, so no walk is longer than the output. If offsets never go back it judges only the last place, and the
// copy goes from line to line without the rule.
ghost use Rattle.std.specs.Prelude.{◌≡◌, ◌+◌, ◌-◌, ◌%◌, ◌^◌, ◌≤◌, ◌<◌, min, false, ◌&&◌, length, leb, ltb};
ghost use Rattle.record.specs.Bases.{byte_at};
ghost use Rattle.record.specs.Place.{place_in};
ghost use Rattle.output.specs.Outcome.{leaves};
ghost use Rattle.region.specs.Region.{bad_bounds, start_of, end_of, bases_to};
ghost use Rattle.region.specs.Exact.{offsets_of, in_file, region_of};
ghost use Rattle.region.specs.Judge.{places_judged, bases_judged, region_judged};
ghost use Rattle.region.specs.Inside.{Addressable};
ghost use Rattle.region.specs.Copy.{Begins, Copies};

use crate::{Part, bounds, inside};
use record::{Offset, Position, Record};
use refusal::Refusal;

// Bases that can be read: where the first lies, how many of them are in its line, and how many they are.
#[derive(Clone, Copy)]
pub(crate) struct Bases {
    pub at: usize,
    pub run: usize,
    pub count: usize,
}

// How many bytes a file of so many has from base `p` on.
fn bytes_from(bytes: usize, x: Record, p: Position) -> usize
    requires { (0 < x.line_bases) × (0 < x.line_width) × (0 < p.0) }
    ensures { result ≡ bytes - place_in x (p.0 - 1) }
{
    let Some(o) = x.offset_of(p) else {
        return 0;
    };
    (bytes as u64).saturating_sub(o.0) as usize
}

// Do offsets never go back, and is base `last` in a file of so many bytes: then so is every base before it.
fn last_inside(bytes: usize, x: Record, last: Position) -> bool
    requires { (0 < x.line_bases) × (0 < x.line_width) × (0 < last.0) }
    ensures { result ≡ (leb x.line_bases x.line_width && ltb (place_in x (last.0 - 1)) bytes) }
{
    x.line_bases <= x.line_width && 0 < bytes_from(bytes, x, last)
}

// The part that is a whole file of so many bytes.
fn whole(bytes: usize) -> Part
    ensures { result ≡ record { from = record { 0 = 0 }; to = record { 0 = bytes } } }
{
    Part {
        from: Offset(0),
        to: Offset(bytes as u64),
    }
}

// How many of `n` bases from base `a` on lie in a file of so many bytes, up to the first that does not: by the last base, if that is
// enough.
fn count_inside(bytes: usize, x: Record, a: Position, n: usize) -> usize
    requires { Addressable x a.0 n }
    ensures { result ≡ in_file bytes (offsets_of x a.0 n) }
{
    let last = Position(a.0 + (n as u64 - 1));
    if last_inside(bytes, x, last) {
        return n;
    }
    inside::count_in(whole(bytes), x, a, n)
}

// The offset of the next line, if the bases of this one end at offset `end`.
fn next_line(x: Record, end: usize) -> usize
    requires { (x.line_bases ≤ end + x.line_width) × (end + x.line_width < 2 ^ 64 + x.line_bases) }
    ensures { result + x.line_bases ≡ end + x.line_width }
{
    if x.line_width < x.line_bases {
        return end - (x.line_bases - x.line_width) as usize;
    }
    end + (x.line_width - x.line_bases) as usize
}

// Copies some bases to the front of the output. All lie in the bytes of the file that are at hand. The start of each further line follows
// from the line before.
pub(crate) fn copy_bases(file: &[u8], x: Record, bases: Bases, out: &mut [u8])
    requires begins { Begins file.now x bases.count bases.at bases.run }
    requires n_in_bounds { bases.count ≤ length out.old }
    ensures { Copies file.now x bases.count bases.at bases.run out.old out.new }
{
    let n = bases.count;
    let mut k = 0;
    let mut at = bases.at;
    let mut run = bases.run;
    // the first and the last run are shorter than a line, so the steps are not equal
    while run < n - k {
        copying::copy_run(file, at, run, out, k);
        k += run;
        at = next_line(x, at + run);
        run = inside::shorter(x.line_bases, n - k);
    }
    copying::copy_run(file, at, run, out, k);
}

// Judges `n` bases from base `first` on, which are in one line: they lie one behind the other.
fn judge_line(bytes: usize, x: Record, first: Position, n: usize) -> Result<Bases, Refusal>
    requires addressable { Addressable x first.0 n }
    requires n_bound { n ≤ x.line_bases - (first.0 - 1) % x.line_bases }
    ensures { result ≡ places_judged bytes x first.0 n }
{
    let rest = bytes_from(bytes, x, first);
    if rest < n {
        let base = first.0 + rest as u64;
        return Err(Refusal::NotInFile { base });
    }
    Ok(Bases {
        at: bytes - rest,
        run: n,
        count: n,
    })
}

// Judges `n` bases from base `first` on, in any number of lines; the first line has `run` of them.
fn judge_lines(
    bytes: usize,
    x: Record,
    first: Position,
    run: usize,
    n: usize,
) -> Result<Bases, Refusal>
    requires addressable { Addressable x first.0 n }
    requires run_value { run ≡ min n (x.line_bases - (first.0 - 1) % x.line_bases) }
    ensures { result ≡ places_judged bytes x first.0 n }
{
    let inside = count_inside(bytes, x, first, n);
    if inside < n {
        let base = first.0 + inside as u64;
        return Err(Refusal::NotInFile { base });
    }
    Ok(Bases {
        at: inside::offset_in(x, first),
        run,
        count: n,
    })
}

// Judges the bases from `first` to `last` of a record. A region in one line divides once.
fn judge_bases(
    bytes: usize,
    x: Record,
    first: Position,
    last: Position,
    room: usize,
) -> Result<Bases, Refusal>
    requires { (0 < x.line_bases) × (0 < x.line_width) × (0 < first.0) × (first.0 ≤ last.0) }
    ensures { result ≡ bases_judged bytes x first.0 (bases_to first.0 last.0) room }
{
    let needed = last.0 - first.0 + 1;
    if (room as u64) < needed {
        return Err(Refusal::NoRoom { needed });
    }
    let n = needed as usize;
    let run = inside::in_line(x, first, n);
    if run < n {
        return judge_lines(bytes, x, first, run, n);
    }
    judge_line(bytes, x, first, n)
}

// Judges a region of a record, by bounds that are not bad, for a file of so many bytes and so much room. It reads no byte.
pub(crate) fn judge_region(
    bytes: usize,
    x: Record,
    start: Option<Position>,
    end: Option<Position>,
    room: usize,
) -> Result<Bases, Refusal>
    requires { (0 < x.line_bases) × (0 < x.line_width) × (bad_bounds start end ≡ false) }
    ensures { result ≡ region_judged bytes x (start_of start) (end_of x.length end) room }
{
    let first = bounds::first_base(start);
    let last = bounds::last_base(x.length, end);
    if bounds::past_length(x.length, first, last) {
        return Err(Refusal::PastLength { length: x.length });
    }
    judge_bases(bytes, x, first, last, room)
}

// Reads a region of a record, by bounds that are not bad: it is judged, and then copied.
pub(crate) fn read_region(
    file: &[u8],
    x: Record,
    start: Option<Position>,
    end: Option<Position>,
    out: &mut [u8],
) -> Result<usize, Refusal>
    requires { (0 < x.line_bases) × (0 < x.line_width) × (bad_bounds start end ≡ false) }
    ensures { leaves result out.new ≡ region_of (length file.now) (byte_at file.now) x (start_of start) (end_of x.length end) out.old }
{
    let bases = judge_region(file.len(), x, start, end, out.len())?;
    copy_bases(file, x, bases, out);
    Ok(bases.count)
}
