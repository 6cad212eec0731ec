// A sheet whose regions and table are lent as bytes, as a host has them. A region is five numbers, eight bytes to
// a number, low byte first: its row, whether there is a start (0: no), the start, whether there is an end (0: no), the end. What is left
// of a last part of a region is ignored.
ghost use Rattle.std.specs.Prelude.{◌≡◌, ◌+◌, ◌*◌, ◌≤◌, ◌<◌, length, get_or};
ghost use Rattle.table.specs.Numbers.{numbers_in};
ghost use Rattle.table.specs.Rows.{row_words, row_at, used_at};
ghost use Rattle.sheet.specs.Sheet.{leaves_both, sheet_read};
ghost use Rattle.sheet.specs.Bytes.{bound_by, region_of, region_words, regions_in};

use crate::{Region, RegionRefused, Source};
use record::{Offset, Position, Record};
use refusal::Refusal;

// The numbers of a region.
const WORDS: usize = 5;

// The number of four bytes.
fn quad(a: u8, b: u8, c: u8, d: u8) -> u32
    ensures { result ≡ a + 256 * (b + 256 * (c + 256 * d)) }
{
    a as u32 + b as u32 * 256 + c as u32 * 65536 + d as u32 * 16777216
}

// Number `k` of some bytes. There is no loop, so that it compiles to one load of eight bytes: a sheet reads 26 numbers for a region. Its
// plain twin is `table`'s.
fn number(bytes: &[u8], k: usize) -> u64
    requires { k < length (numbers_in bytes.now) }
    ensures { result ≡ get_or (numbers_in bytes.now) k 0 }
{
    let at = k * 8;
    let low = quad(bytes[at], bytes[at + 1], bytes[at + 2], bytes[at + 3]);
    let high = quad(bytes[at + 4], bytes[at + 5], bytes[at + 6], bytes[at + 7]);
    low as u64 + high as u64 * 4294967296
}

// The record of a row that the table has.
fn record_at(table: &[u8], row: usize) -> Record
    requires { row * row_words + row_words ≤ length (numbers_in table.now) }
    ensures { result ≡ row_at (numbers_in table.now) row }
{
    let b = row * table::WORDS;
    Record {
        name_start: number(table, b),
        name_length: number(table, b + 1),
        length: number(table, b + 2),
        position: Offset(number(table, b + 3)),
        line_bases: number(table, b + 4),
        line_width: number(table, b + 5),
        description_start: number(table, b + 6),
        description_length: number(table, b + 7),
    }
}

// A bound as a host gives it: absent if its flag is 0.
#[tactic(auto, unfolding(crate::specs::Bytes::bound_by))]
fn bound(flag: u64, p: u64) -> Option<Position>
    ensures { result ≡ bound_by flag p }
{
    if flag == 0 { None } else { Some(Position(p)) }
}

// Region `i`.
fn region_at(regions: &[u8], i: usize) -> Region
    requires { i * region_words + region_words ≤ length (numbers_in regions.now) }
    ensures { result ≡ region_of (numbers_in regions.now) (i * region_words) }
{
    let b = i * WORDS;
    let start = bound(number(regions, b + 1), number(regions, b + 2));
    let end = bound(number(regions, b + 3), number(regions, b + 4));
    Region {
        row: number(regions, b) as usize,
        start,
        end,
    }
}

// Regions and a table, both as bytes.
#[derive(Clone, Copy)]
struct Lent<'a> {
    regions: &'a [u8],
    table: &'a [u8],
    in_use: usize,
}

impl<'a> Source for Lent<'a> {
    ghost regions = { λ s. regions_in s.regions.now };

    ghost table = { λ s. numbers_in s.table.now };

    ghost in_use = { λ s. s.in_use };

    fn count(&self) -> usize {
        self.regions.len() / 8 / WORDS
    }

    fn region(&self, place: usize) -> Region {
        region_at(self.regions, place)
    }

    // As `table::bytes::row` gives it.
    fn row(&self, row: usize) -> Result<(usize, Record), Refusal> {
        let all = table::bytes::rows(self.table);
        if all < self.in_use {
            return Err(Refusal::BadRow { row: all as u64 });
        }
        if self.in_use <= row {
            return Err(Refusal::BadRow { row: row as u64 });
        }
        Ok((row, record_at(self.table, row)))
    }
}

// Reads the regions of a sheet, of a table with so many rows in use.
pub fn read_sheet(
    file: &[u8],
    table: &[u8],
    in_use: usize,
    regions: &[u8],
    out: &mut [u8],
    starts: &mut [u64],
) -> Result<usize, RegionRefused>
    ensures { leaves_both result out.new starts.new ≡ sheet_read file.now (numbers_in table.now) in_use (regions_in regions.now) out.old starts.old }
{
    let source = Lent {
        regions,
        table,
        in_use,
    };
    crate::read_from(file, &source, out, starts)
}
