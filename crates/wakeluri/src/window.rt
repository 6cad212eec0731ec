// Entry points where only a part of a file is at hand: a region read from a window, and the part that a region needs.
ghost use Rattle.std.specs.Prelude.{◌≡◌};
ghost use Rattle.output.specs.Outcome.{leaves};
ghost use Rattle.region.specs.Window.{window_read, needed_read};
ghost use Rattle.table.specs.Numbers.{numbers_in};
ghost use Rattle.wakeluri.specs.Answer.{bound_of};
ghost use Rattle.wakeluri.specs.Told.{written_told};
ghost use Rattle.wakeluri.specs.Window.{no_part, part_told, part_answer};

use crate::answer::Answer;
use crate::{answer, rows};
use record::Offset;
use refusal::{Numbers, Refusal};
use region::Part;

// A part of a file: the offset of its first byte, and the one behind its last.
#[repr(C)]
#[derive(Clone, Copy)]
pub struct PartAnswer {
    pub refusal: u64,
    pub first: u64,
    pub second: u64,
    pub from: u64,
    pub to: u64,
}

// No part.
fn no_part() -> Part
    ensures { result ≡ no_part }
{
    Part {
        from: Offset(0),
        to: Offset(0),
    }
}

// The struct, field by field.
fn part_told(n: Numbers, part: Part) -> PartAnswer
    ensures { result ≡ part_told n part }
{
    PartAnswer {
        refusal: n.refusal,
        first: n.first,
        second: n.second,
        from: part.from.0,
        to: part.to.0,
    }
}

// Which part of a file is needed.
impl From<Result<Part, Refusal>> for PartAnswer {
    ghost from_gives = { λ r told. told ≡ part_answer r };

    #[tactic(auto, unfolding(crate::specs::Window::part_answer))]
    fn from(r: Result<Part, Refusal>) -> PartAnswer {
        match r {
            Ok(part) => part_told(answer::fine(), part),
            Err(f) => part_told(Numbers::from(f), no_part()),
        }
    }
}

// Exactly the bases of a region of a row's record, from a window of a file of so many bytes that begins at an offset.
pub fn wakeluri_read_window(
    length: u64,
    window: &[u8],
    from: u64,
    table: &[u8],
    in_use: u64,
    row: u64,
    has_start: u64,
    start: u64,
    has_end: u64,
    end: u64,
    out: &mut [u8],
) -> Answer
    ensures { leaves result out.new ≡ written_told (window_read length window.now from (numbers_in table.now) in_use row (bound_of has_start start) (bound_of has_end end) out.old) }
{
    let a = rows::bound(has_start, start);
    let e = rows::bound(has_end, end);
    let used = rows::used_row(table, in_use, row);
    let read = region::read_window(length as usize, window, Offset(from), used, a, e, out);
    Answer::from(read)
}

// The part of a file of so many bytes that has the bases of a region of a row's record, for an output of so much room.
pub fn wakeluri_needed_bytes(
    length: u64,
    room: u64,
    table: &[u8],
    in_use: u64,
    row: u64,
    has_start: u64,
    start: u64,
    has_end: u64,
    end: u64,
) -> PartAnswer
    ensures { result ≡ part_answer (needed_read length room (numbers_in table.now) in_use row (bound_of has_start start) (bound_of has_end end)) }
{
    let a = rows::bound(has_start, start);
    let e = rows::bound(has_end, end);
    let used = rows::used_row(table, in_use, row);
    PartAnswer::from(region::needed_bytes(length as usize, room as usize, used, a, e))
}
