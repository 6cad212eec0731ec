// States that a call can have left: no number is over the size limit, and they agree. The calls refuse any other.
ghost use Rattle.std.specs.Prelude.{◌≡◌, ◌&&◌, ◌-◌, ltb};
ghost use Rattle.feeder.specs.Calls.{sound_waiting, sound_opened, sound_numbers, sound_so_far, sound_phase, sound_of};

use crate::{Feeder, Opened, Phase, SoFar, Waiting};
use fitting::Numbers;

// Could a call have left this line.
fn sound_waiting(t: Waiting) -> bool
    ensures { result ≡ sound_waiting t }
{
    (t.bases <= t.width)
        & (t.name <= t.width)
        & (t.text <= t.width)
        & (t.kept <= t.width)
        & (t.width <= refusal::LIMIT)
        & (!t.whole | (t.bases < t.width))
}

fn sound_opened(d: Opened) -> bool
    ensures { result ≡ sound_opened d }
{
    let said = d.said;
    let name = said.name;
    let text = said.description;
    (d.at <= refusal::LIMIT)
        & (d.end <= refusal::LIMIT)
        & (name.start <= refusal::LIMIT)
        & (name.length <= refusal::LIMIT)
        & (text.start <= refusal::LIMIT)
        & (text.length <= refusal::LIMIT)
}

fn sound_numbers(n: Numbers) -> bool
    ensures { result ≡ sound_numbers n }
{
    (n.position <= refusal::LIMIT)
        & (n.bases <= refusal::LIMIT)
        & (n.width <= refusal::LIMIT)
        & (0 < n.bases)
        & (n.bases < n.width)
}

// Does a run end before `at`. It makes no sum, which might not fit.
fn ends_before(n: Numbers, at: usize) -> bool
    ensures { result ≡ ltb n.position at && ltb n.bases (at - n.position) }
{
    if n.position < at {
        return n.bases < at - n.position;
    }
    false
}

fn sound_so_far(at: usize, so_far: SoFar) -> bool
    ensures { result ≡ sound_so_far at so_far }
{
    match so_far {
        SoFar::Blank => true,
        SoFar::Run(n) => sound_numbers(n) & ends_before(n, at),
        SoFar::Rows(n, count) => sound_numbers(n) & (count <= refusal::LIMIT),
    }
}

fn sound_phase(phase: Phase) -> bool
    ensures { result ≡ sound_phase phase }
{
    match phase {
        Phase::Definition(at) => at <= refusal::LIMIT,
        Phase::Lines(d, so_far, at) => {
            sound_opened(d) & (at <= refusal::LIMIT) & sound_so_far(at, so_far)
        }
        Phase::Halted(_) => true,
        Phase::Ended => true,
    }
}

// Could a call have left this feeder.
pub(crate) fn is_sound(f: Feeder) -> bool
    ensures { result ≡ sound_of f }
{
    let phase = f.phase;
    let waiting = f.waiting;
    (f.total <= refusal::LIMIT) & sound_phase(phase) & sound_waiting(waiting)
}
