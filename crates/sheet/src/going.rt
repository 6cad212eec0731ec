// How a sheet goes on: one turn for each region to judge it, and then one turn for each to write it. So every region is judged before a byte
// is written.
ghost use Rattle.std.specs.Prelude.{◌≡◌, ◌+◌, ◌≤◌, ◌<◌, length};
ghost use Rattle.table.specs.Rows.{held_of};
ghost use Rattle.region.specs.Answer.{exact_answer};
ghost use Rattle.sheet.specs.Turns.{Ready, stage, stops, started, told_of, weighed, judged_as, wrote_to, writes, turned};

use crate::{MOST, Region, RegionRefused};
use record::Record;
use refusal::Refusal;

// What is known so far: the bytes of the regions judged, or of those written; or why there is no more to do.
#[derive(Clone, Copy)]
pub(crate) enum Pass {
    Judging(u64),
    Writing(usize),
    Refused(Refusal),
}

// Where a sheet stands: how many turns are left, how many regions it has, and the place of the next.
#[derive(Clone, Copy)]
pub(crate) struct Going {
    pub left: usize,
    pub count: usize,
    pub place: usize,
    pub pass: Pass,
}

// No turn is left: the region at `place` is refused.
#[tactic(auto, unfolding(crate::specs::Turns::stops))]
fn stop(count: usize, place: usize, f: Refusal) -> Going
    ensures { result ≡ stops count place f }
{
    Going {
        left: 0,
        count,
        place,
        pass: Pass::Refused(f),
    }
}

// Before the first turn, for a file of so many bytes, so many regions, and a list of so many starts.
pub(crate) fn start(bytes: usize, count: usize, starts: usize) -> Going
    ensures { result ≡ started bytes count starts }
{
    if refusal::over_limit(bytes) {
        return stop(count, count, Refusal::TooLong);
    }
    if MOST < count {
        return stop(count, count, Refusal::TooManyRegions);
    }
    if starts < count {
        return stop(count, count, Refusal::TooFewStarts);
    }
    Going {
        left: count + count,
        count,
        place: 0,
        pass: Pass::Judging(0),
    }
}

impl Going {
    // No turn is left: the region at the place is refused.
    fn refused(self, f: Refusal) -> Going
        ensures { result ≡ stops self.count self.place f }
    {
        stop(self.count, self.place, f)
    }

    // The region at the place is good, and with it the regions judged have so many bytes.
    // That a turn is left is no invariant of `Going`: behind the last turn there is none.
    #[tactic(auto, unfolding(crate::specs::Turns::weighed))]
    fn weigh(self, total: u64, room: usize) -> Going
        requires { (0 < self.left) × (self.place < self.count) }
        ensures { result ≡ weighed self total room }
    {
        let next = self.place + 1;
        if next < self.count {
            return Going {
                left: self.left - 1,
                place: next,
                pass: Pass::Judging(total),
                ..self
            };
        }
        if (room as u64) < total {
            return stop(self.count, self.count, Refusal::NoRoom { needed: total });
        }
        Going {
            left: self.left - 1,
            place: 0,
            pass: Pass::Writing(0),
            ..self
        }
    }

    // Judges the region at the place, for a file of so many bytes and all the room.
    fn judge(
        self,
        bytes: usize,
        row: Result<(usize, Record), Refusal>,
        r: Region,
        total: u64,
        room: usize,
    ) -> Going
        requires { (0 < self.left) × (self.place < self.count) }
        ensures { result ≡ judged_as self total (exact_answer bytes (held_of row) r.start r.end room) room }
    {
        match region::answer::exact_answer(bytes, row, r.start, r.end, room) {
            Err(f) => self.refused(f),
            Ok(n) => self.weigh(total.saturating_add(n as u64), room),
        }
    }

    // The region at the place is written, and the output is filled up to `at`.
    #[tactic(auto, unfolding(crate::specs::Turns::wrote_to))]
    fn wrote(self, at: usize) -> Going
        requires { (0 < self.left) × (self.place < self.count) }
        ensures { result ≡ wrote_to self at }
    {
        Going {
            left: self.left - 1,
            place: self.place + 1,
            pass: Pass::Writing(at),
            ..self
        }
    }

    // Writes the region at the place from `at` on, and that it begins there.
    fn write(
        self,
        file: &[u8],
        row: Result<(usize, Record), Refusal>,
        r: Region,
        at: usize,
        out: &mut [u8],
        starts: &mut [u64],
    ) -> Going
        requires { (0 < self.left) × (self.place < self.count) × (at ≤ length out.old) × (self.place < length starts.old) }
        ensures { stage result out.new starts.new ≡ writes file.now (held_of row) r self at out.old starts.old }
    {
        starts[self.place] = at as u64;
        match region::read_exact(file, row, r.start, r.end, &mut out[at..]) {
            Err(f) => self.refused(f),
            Ok(n) => self.wrote(at + n),
        }
    }

    // A turn on region `r`, which is that at the place, with its row.
    pub(crate) fn turn(
        self,
        file: &[u8],
        row: Result<(usize, Record), Refusal>,
        r: Region,
        out: &mut [u8],
        starts: &mut [u64],
    ) -> Going
        requires { Ready self (length out.old) (length starts.old) }
        ensures { stage result out.new starts.new ≡ turned file.now (held_of row) r self out.old starts.old }
    {
        match self.pass {
            Pass::Refused(f) => self.refused(f),
            Pass::Judging(total) => self.judge(file.len(), row, r, total, out.len()),
            Pass::Writing(at) => self.write(file, row, r, at, out, starts),
        }
    }

    // The answer of a sheet that has no turn left.
    #[tactic(auto, unfolding(crate::specs::Turns::told_of))]
    pub(crate) fn told(self) -> Result<usize, RegionRefused>
        ensures { result ≡ told_of self }
    {
        match self.pass {
            Pass::Judging(_) => Ok(0),
            Pass::Writing(at) => Ok(at),
            Pass::Refused(refusal) => Err(RegionRefused {
                place: self.place,
                refusal,
            }),
        }
    }
}
