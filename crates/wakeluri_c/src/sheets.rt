// The exports of wakeluri's sheets.rt.
ghost use Rattle.std.specs.Prelude.{◌≡◌};
ghost use Rattle.sheet.specs.Sheet.{leaves_both, sheet_read};
ghost use Rattle.sheet.specs.Bytes.{regions_in};
ghost use Rattle.table.specs.Numbers.{numbers_in};
ghost use Rattle.wakeluri.specs.Sheets.{sheet_told};

use wakeluri::answer::Answer;

// Exactly the bases of each region, one after another, and where each begins.
#[unsafe(no_mangle)]
pub extern "C" fn wakeluri_read_sheet(
    file: &[u8],
    table: &[u8],
    in_use: u64,
    regions: &[u8],
    out: &mut [u8],
    starts: &mut [u64],
) -> Answer
    ensures { leaves_both result out.new starts.new ≡ sheet_told (sheet_read file.now (numbers_in table.now) in_use (regions_in regions.now) out.old starts.old) }
{
    wakeluri::sheets::wakeluri_read_sheet(file, table, in_use, regions, out, starts)
}
