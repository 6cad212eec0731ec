// Entry points on primers: how many plain sequences one stands for, and where a text has it.
ghost use Rattle.std.specs.Prelude.{◌≡◌};
ghost use Rattle.primer.specs.Primer.{degeneracy_read, place_read};
ghost use Rattle.wakeluri.specs.Primers.{counted_answer, place_answer};

use crate::answer;
use crate::answer::Answer;
use refusal::{Numbers, Refusal};

// How many sequences a primer stands for.
impl From<Result<u64, Refusal>> for Answer {
    ghost from_gives = { λ r told. told ≡ counted_answer r };

    #[tactic(auto, unfolding(crate::specs::Primers::counted_answer))]
    fn from(r: Result<u64, Refusal>) -> Answer {
        match r {
            Ok(n) => answer::count_answer(answer::fine(), n as usize, 0),
            Err(f) => answer::count_answer(Numbers::from(f), 0, 0),
        }
    }
}

// A place: the count is 1, or 0 for none.
impl From<Result<Option<usize>, Refusal>> for Answer {
    ghost from_gives = { λ r told. told ≡ place_answer r };

    #[tactic(auto, unfolding(crate::specs::Primers::place_answer))]
    fn from(r: Result<Option<usize>, Refusal>) -> Answer {
        match r {
            Ok(Some(k)) => answer::count_answer(answer::fine(), 1, k),
            Ok(None) => answer::count_answer(answer::fine(), 0, 0),
            Err(why) => answer::count_answer(Numbers::from(why), 0, 0),
        }
    }
}

// How many plain sequences a primer stands for.
pub fn wakeluri_degeneracy(primer: &[u8]) -> Answer
    ensures { result ≡ counted_answer (degeneracy_read primer.now) }
{
    Answer::from(primer::degeneracy(primer))
}

// The first place of a primer in a text that is not before a given place.
pub fn wakeluri_find_primer(primer: &[u8], text: &[u8], from: u64) -> Answer
    ensures { result ≡ place_answer (place_read primer.now text.now from) }
{
    Answer::from(primer::find_next(primer, text, from as usize))
}
