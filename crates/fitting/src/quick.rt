// The fast way over a record that a rule finds good, told without refusals, so that its numbers stay at hand until they are stored. A record that is not
// told so is indexed by `index_at`.
ghost use Rattle.std.specs.Prelude.{◌≤◌, length};
ghost use Rattle.fitting.specs.Quick.{GoodBy, QuickBy};

use crate::Rule;
use indexer::Good;
use record::Record;

// The sequence from `e` on, if its lines are even.
fn even_good(s: &[u8], e: usize) -> Option<Good>
    requires { e ≤ length s.now }
    ensures { GoodBy Rule.Complete s.now e result }
{
    let first = lines::sequence_line(s, e);
    let (bases, next) = crate::even_lines(s, e, first)?;
    Some(Good { first, bases, next })
}

// The sequence from `e` on, if the rule finds it good and it is told.
fn good_by(s: &[u8], e: usize, rule: Rule) -> Option<Good>
    requires { e ≤ length s.now }
    ensures { GoodBy rule s.now e result }
{
    match rule {
        Rule::Strict => indexer::quick::good_at(s, e),
        Rule::Complete => even_good(s, e),
    }
}

// The row of the record at `at`, with the place behind it, if it is told.
pub(crate) fn quick_at(s: &[u8], at: usize, rule: Rule) -> Option<(Record, usize)>
    ensures { QuickBy rule s.now at result }
{
    let (e, d) = indexer::opened(s, at).ok()??;
    let good = good_by(s, e, rule)?;
    let row = indexer::row_for(at, d, good.bases, e, good.first);
    Some((row, good.next))
}
