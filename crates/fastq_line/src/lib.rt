// Index lines of six columns, read and written: those of five, and the position of the first quality. Refused in reading: 9, an empty line;
// 10, a field that is absent; 11, one that is no number; 12, a 0 in field 4 or 5. In writing: 25, a row that is not there or not sound; 13,
// a name with a tab or an LF; 14, no room. 1 comes first in the call on a line that stands alone and in writing.
#![tactic(auto)]

ghost use Rattle.std.specs.Prelude.{◌≡◌, refl, length};
ghost use Rattle.std.proofs.Common.{lit<};
ghost use Rattle.output.specs.Outcome.{leaves};
ghost use Rattle.table.specs.Rows.{named_of};
ghost use Rattle.fastq_line.specs.SixColumns.{six_columns_of, entry_for, plain_only, six_line_says, SaidAt, read_line, line_written};

use fastq::QualityRow;
use index_line::reading::{Line, ReadAt};
use index_line::writing::Numbers;
use index_line::{reading, writing};
use record::{Offset, Record};
use refusal::Refusal;

// What a line says: a row, whose name's span counts from the line's start; and whether the line is plain, so that writing its row gives the
// same bytes.
#[derive(Clone, Copy)]
pub struct Entry {
    pub row: QualityRow,
    pub plain: bool,
}

// How many numbers a line has behind its name, each with a tab before it.
const NUMBERS: usize = 5;

impl Line<NUMBERS> for Entry {
    ghost entry = { entry_for };

    ghost only = { plain_only };

    fn of(name: usize, numbers: &[u64; NUMBERS], plain: bool) -> Entry {
        let unnamed = Record::unnamed(numbers[0], Offset(numbers[1]), numbers[2], numbers[3]);
        let row = QualityRow {
            record: unnamed.named(0, name as u64),
            qualities: Offset(numbers[4]),
        };
        Entry { row, plain }
    }

    fn plain_if(self, p: bool) -> Entry {
        Entry {
            plain: p & self.plain,
            ..self
        }
    }

    ghost some = { lit< tt };

    ghost few = { lit< tt };

    ghost both = { λ p q k vs. refl };
}

// The calls below stay beside those of `reading` and `writing`: docs/PROMISES.md names them.
// Reads line number `line` with its end: one final LF, and one CR before it, come off. It does not look for an LF before that: a line
// of a text has none.
pub fn parse_line(l: &[u8], line: u64) -> Result<Entry, Refusal>
    ensures { result ≡ six_line_says line l.now }
{
    reading::parse_line::<NUMBERS, Entry>(l, line)
}

// Reads the line that begins at a place of a text, and tells where it ends; at or past the end of the text there is an empty line.
pub fn parse_at(text: &[u8], at: usize, line: u64) -> ReadAt<Entry>
    ensures { SaidAt line text.now at result.read result.end }
{
    reading::parse_at::<NUMBERS, Entry>(text, at, line)
}

// Reads a line, with its end, that stands alone. An LF before its end is a byte like others, but then it is not plain: it is no line.
pub fn read_line(l: &[u8]) -> Result<Entry, Refusal>
    ensures { result ≡ read_line l.now }
{
    reading::read_line::<NUMBERS, Entry>(l)
}

// The numbers of a record in a line, with where its qualities begin.
#[derive(Clone, Copy)]
struct Five {
    qualities: Offset,
}

impl Numbers<NUMBERS> for Five {
    ghost columns = { λ s x. six_columns_of x s.qualities };

    fn of(self, x: Record) -> [u64; NUMBERS] {
        [
            x.length,
            x.position.0,
            x.line_bases,
            x.line_width,
            self.qualities.0,
        ]
    }

    ghost few = { lit< tt };
}

// Writes the line of a row in use, whose qualities begin at an offset, to the front of the output. Its name is a span of `names`.
pub fn write_line(
    names: &[u8],
    row: Result<(usize, Record), Refusal>,
    qualities: Offset,
    out: &mut [u8],
) -> Result<usize, Refusal>
    ensures { leaves result out.new ≡ line_written names.now (named_of (length names.now) row) qualities out.old }
{
    writing::write_line::<NUMBERS, Five>(Five { qualities }, names, row, out)
}
