// The exports of wakeluri's primers.rt.
ghost use Rattle.std.specs.Prelude.{◌≡◌};
ghost use Rattle.primer.specs.Primer.{degeneracy_read, place_read};
ghost use Rattle.wakeluri.specs.Primers.{counted_answer, place_answer};

use wakeluri::answer::Answer;

// How many plain sequences a primer stands for.
#[unsafe(no_mangle)]
pub extern "C" fn wakeluri_degeneracy(primer: &[u8]) -> Answer
    ensures { result ≡ counted_answer (degeneracy_read primer.now) }
{
    wakeluri::primers::wakeluri_degeneracy(primer)
}

// The first place of a primer in a text that is not before a given place.
#[unsafe(no_mangle)]
pub extern "C" fn wakeluri_find_primer(primer: &[u8], text: &[u8], from: u64) -> Answer
    ensures { result ≡ place_answer (place_read primer.now text.now from) }
{
    wakeluri::primers::wakeluri_find_primer(primer, text, from)
}
