// The fast way over a sequence that the ported rule finds good: it is told without refusals, so that its numbers stay at hand.
ghost use Rattle.indexer.specs.Quick.{GoodAt};

use crate::Good;

// The sequence from `e` on, if the rule finds it good. Where it has one line, no more is looked for. Example: of the lines ACGT and AC, with a '>' behind
// them, the first has 4 bases and 5 bytes, both have 6 bases, and they end at e + 8.
pub fn good_at(s: &[u8], e: usize) -> Option<Good>
    ensures { GoodAt s.now e result }
{
    if s.len() < e {
        return None;
    }
    let first = lines::sequence_line(s, e);
    if first.bases == 0 {
        return None;
    }
    let next = e + first.width;
    if lines::sequence_ends(s, next) {
        let bases = first.bases;
        return Some(Good { first, bases, next });
    }
    let (bases, next) = crate::index_rest(s, next, first).ok()?;
    Some(Good { first, bases, next })
}
