// A sheet: the exact reads of up to 200 regions in one call, their bases one after another in one output, and where each begins in a lent
// list of numbers. All or nothing: it judges every region before it writes a byte. In this order it refuses: 1, a file that is too
// long; 40, more than 200 regions; 41, a list of starts that is shorter than that of the regions; what the exact read of the first
// refused region refuses, with all the room; 14, an output that is too short for all of them. A refusal comes with the place of its
// region in the sheet, which for 1, 40, 41 and the last 14 is the number of regions, and leaves output and starts as they were.
// The regions are a lent slice of structs. `bytes` has the same over regions and a table that are lent as bytes.
#![tactic(auto)]

pub mod bytes;
mod going;

ghost use Rattle.std.specs.Prelude.{ℕ, ◌≡◌, ◌<◌, List, length, get_or};
ghost use Rattle.table.specs.Rows.{used_at};
ghost use Rattle.sheet.specs.Sheet.{leaves_both, sheet_read};
ghost use Rattle.sheet.specs.Turns.{no_region};
ghost use Rattle.sheet.specs.declared.Region.{Region};

use record::{Position, Record};
use refusal::Refusal;

// A region of the sequence of a row.
#[derive(Clone, Copy)]
pub struct Region {
    pub row: usize,
    pub start: Option<Position>,
    pub end: Option<Position>,
}

// Which region of a sheet is refused, and why.
#[derive(Clone, Copy)]
pub struct RegionRefused {
    pub place: usize,
    pub refusal: Refusal,
}

// The most regions of a sheet.
pub const MOST: usize = 200;

// Where a sheet has its regions from, and the rows that they name.
trait Source {
    ghost regions: { Self → List Region };

    ghost table: { Self → List ℕ };

    ghost in_use: { Self → ℕ };

    // How many regions there are.
    fn count(&self) -> usize
        ensures { result ≡ length (regions self.now) };

    // The region at a place.
    fn region(&self, place: usize) -> Region
        requires { place < length (regions self.now) }
        ensures { result ≡ get_or (regions self.now) place no_region };

    // A row of the table.
    fn row(&self, row: usize) -> Result<(usize, Record), Refusal>
        ensures { result ≡ used_at (table self.now) (in_use self.now) row };
}

// Reads the regions of a sheet.
fn read_from<S: Source>(
    file: &[u8],
    source: &S,
    out: &mut [u8],
    starts: &mut [u64],
) -> Result<usize, RegionRefused>
    ensures { leaves_both result out.new starts.new ≡ sheet_read file.now (S.table source.now) (S.in_use source.now) (S.regions source.now) out.old starts.old }
{
    let mut g = going::start(file.len(), source.count(), starts.len());
    // regions are gone through twice, and a refusal ends both, so no range gives the turns
    while 0 < g.left {
        let r = source.region(g.place);
        g = g.turn(file, source.row(r.row), r, out, starts);
    }
    g.told()
}

// Regions as structs, and a table of numbers.
#[derive(Clone, Copy)]
struct Lent<'a> {
    regions: &'a [Region],
    table: &'a [u64],
    in_use: usize,
}

impl<'a> Source for Lent<'a> {
    ghost regions = { λ s. s.regions.now };

    ghost table = { λ s. s.table.now };

    ghost in_use = { λ s. s.in_use };

    fn count(&self) -> usize {
        self.regions.len()
    }

    fn region(&self, place: usize) -> Region {
        self.regions[place]
    }

    fn row(&self, row: usize) -> Result<(usize, Record), Refusal> {
        table::row(self.table, self.in_use, row)
    }
}

// Reads the regions of a sheet, of a table with so many rows in use.
pub fn read_sheet(
    file: &[u8],
    table: &[u64],
    in_use: usize,
    regions: &[Region],
    out: &mut [u8],
    starts: &mut [u64],
) -> Result<usize, RegionRefused>
    ensures { leaves_both result out.new starts.new ≡ sheet_read file.now table.now in_use regions.now out.old starts.old }
{
    let source = Lent {
        regions,
        table,
        in_use,
    };
    read_from(file, &source, out, starts)
}
