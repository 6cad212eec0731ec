// Where two sets of numbers lead apart: bases that lie as the numbers of one record say, against the numbers of another. It takes no time for a
// base. Rows of bases lie side by side, line bases to a row, and the next row line width further on; rows with no byte between them are one row
// without an end. As far as the shorter of the two rows both lead to the same bytes, and behind it they lead apart.
ghost use Rattle.std.specs.Prelude.{◌≡◌, ◌&&◌, eqb};
ghost use Rattle.fastq_checker.specs.Elsewhere.{row_bases, apart_of};

use record::{Position, Record};

// A row without an end.
const ENDLESS: u64 = u64::MAX;

// How many bases a row has.
#[tactic(auto, unfolding(crate::specs::Elsewhere::row_bases))]
fn row_bases(bases: u64, width: u64) -> u64
    ensures { result ≡ row_bases bases width }
{
    if bases == 0 || width == bases {
        return ENDLESS;
    }
    bases
}

// Have two records the same line bases and line width.
fn same_lines(x: Record, y: Record) -> bool
    ensures { result ≡ (eqb x.line_bases y.line_bases && eqb x.line_width y.line_width) }
{
    x.line_bases == y.line_bases && x.line_width == y.line_width
}

// The first of the bases of `x`, which lie where its numbers say, that does not lie where the numbers of `y` say.
pub fn first_apart(x: Record, y: Record) -> Option<Position>
    ensures { result ≡ apart_of x y }
{
    if x.length == 0 {
        return None;
    }
    if x.position.0 != y.position.0 {
        return Some(Position(1));
    }
    if same_lines(x, y) {
        return None;
    }
    let a = row_bases(x.line_bases, x.line_width);
    let b = row_bases(y.line_bases, y.line_width);
    let row = a.min(b);
    if x.length <= row {
        return None;
    }
    Some(Position(row + 1))
}
