// The exports of wakeluri's window.rt.
ghost use Rattle.std.specs.Prelude.{◌≡◌};
ghost use Rattle.output.specs.Outcome.{leaves};
ghost use Rattle.region.specs.Window.{window_read, needed_read};
ghost use Rattle.table.specs.Numbers.{numbers_in};
ghost use Rattle.wakeluri.specs.Answer.{bound_of};
ghost use Rattle.wakeluri.specs.Told.{written_told};
ghost use Rattle.wakeluri.specs.Window.{part_answer};

use wakeluri::answer::Answer;
use wakeluri::window::PartAnswer;

// Exactly the bases of a region of a row's record, from a window of a file of so many bytes that begins at an offset.
#[unsafe(no_mangle)]
pub extern "C" fn wakeluri_read_window(
    length: u64,
    window: &[u8],
    from: u64,
    table: &[u8],
    in_use: u64,
    row: u64,
    has_start: u64,
    start: u64,
    has_end: u64,
    end: u64,
    out: &mut [u8],
) -> Answer
    ensures { leaves result out.new ≡ written_told (window_read length window.now from (numbers_in table.now) in_use row (bound_of has_start start) (bound_of has_end end) out.old) }
{
    wakeluri::window::wakeluri_read_window(
        length, window, from, table, in_use, row, has_start, start, has_end, end, out,
    )
}

// The part of a file of so many bytes that has the bases of a region of a row's record, for an output of so much room.
#[unsafe(no_mangle)]
pub extern "C" fn wakeluri_needed_bytes(
    length: u64,
    room: u64,
    table: &[u8],
    in_use: u64,
    row: u64,
    has_start: u64,
    start: u64,
    has_end: u64,
    end: u64,
) -> PartAnswer
    ensures { result ≡ part_answer (needed_read length room (numbers_in table.now) in_use row (bound_of has_start start) (bound_of has_end end)) }
{
    wakeluri::window::wakeluri_needed_bytes(
        length, room, table, in_use, row, has_start, start, has_end, end,
    )
}
