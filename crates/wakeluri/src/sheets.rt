// The entry point of a sheet: the exact reads of several regions in one call. Regions are bytes, as a table is: five numbers to a region,
// its row, whether there is a start, the start, whether there is an end, the end.
ghost use Rattle.std.specs.Prelude.{◌≡◌};
ghost use Rattle.sheet.specs.Sheet.{leaves_both, sheet_read};
ghost use Rattle.sheet.specs.Bytes.{regions_in};
ghost use Rattle.table.specs.Numbers.{numbers_in};
ghost use Rattle.wakeluri.specs.Sheets.{sheet_answer, sheet_told};

use crate::answer;
use crate::answer::Answer;
use refusal::Numbers;
use sheet::RegionRefused;

// How many bytes were written; or the refusal, and the place in the sheet of the region that is refused.
impl From<Result<usize, RegionRefused>> for Answer {
    ghost from_gives = { λ r told. told ≡ sheet_answer r };

    #[tactic(auto, unfolding(crate::specs::Sheets::sheet_answer))]
    fn from(r: Result<usize, RegionRefused>) -> Answer {
        match r {
            Ok(n) => answer::count_answer(answer::fine(), n, 0),
            Err(e) => answer::count_answer(Numbers::from(e.refusal), 0, e.place),
        }
    }
}

// Exactly the bases of each region, one after another, and where each begins.
pub fn wakeluri_read_sheet(
    file: &[u8],
    table: &[u8],
    in_use: u64,
    regions: &[u8],
    out: &mut [u8],
    starts: &mut [u64],
) -> Answer
    ensures { leaves_both result out.new starts.new ≡ sheet_told (sheet_read file.now (numbers_in table.now) in_use (regions_in regions.now) out.old starts.old) }
{
    let read = sheet::bytes::read_sheet(file, table, in_use as usize, regions, out, starts);
    Answer::from(read)
}
