// A record of an index, and the addressing rule: where each of its bases lies in the file. No other code turns a base position into a byte
// offset. An offset over 64 bits is not refused: it is `None`.
#![tactic(auto)]

ghost use Rattle.std.specs.Prelude.{◌≡◌, ◌+◌, ◌*◌, ◌<◌};
ghost use Rattle.record.specs.Place.{offset_of, address_of};
ghost use Rattle.record.specs.Description.{described_at};

// A base position, from 1.
#[derive(Clone, Copy)]
pub struct Position(pub u64);

// A byte offset, from 0.
#[derive(Clone, Copy)]
pub struct Offset(pub u64);

// A record: its name's span, the four numbers of its index line, and its description's span, which is 0 and 0 if there is none.
#[derive(Clone, Copy)]
pub struct Record {
    pub name_start: u64,
    pub name_length: u64,
    pub length: u64,
    pub position: Offset,
    pub line_bases: u64,
    pub line_width: u64,
    pub description_start: u64,
    pub description_length: u64,
}

// Where a description begins; 0 if it has no bytes.
fn described_at(start: u64, length: u64) -> u64
    ensures { result ≡ described_at start length }
{
    if length == 0 {
        return 0;
    }
    start
}

// The offset of column `column` in line `line` of a sequence, if it fits.
fn fitting(position: u64, line: u64, width: u64, column: u64) -> Option<Offset>
    ensures { result ≡ offset_of (position + line * width + column) }
{
    let skipped = line.checked_mul(width)?;
    let front = position.checked_add(skipped)?;
    let at = front.checked_add(column)?;
    Some(Offset(at))
}

impl Record {
    // The first base position.
    pub const FIRST: u64 = 1;

    // A record without a name and a description.
    pub fn unnamed(length: u64, position: Offset, line_bases: u64, line_width: u64) -> Self
        ensures { result ≡ record { name_start = 0; name_length = 0; length = length; position = position; line_bases = line_bases; line_width = line_width; description_start = 0; description_length = 0 } }
    {
        Record {
            name_start: 0,
            name_length: 0,
            length,
            position,
            line_bases,
            line_width,
            description_start: 0,
            description_length: 0,
        }
    }

    // The same record, with its name's span.
    pub fn named(self, start: u64, length: u64) -> Self
        ensures { result ≡ record { name_start = start; name_length = length; length = self.length; position = self.position; line_bases = self.line_bases; line_width = self.line_width; description_start = self.description_start; description_length = self.description_length } }
    {
        Record {
            name_start: start,
            name_length: length,
            ..self
        }
    }

    // The same record, with its description's span, which is 0 and 0 if it has no bytes.
    pub fn described(self, start: u64, length: u64) -> Self
        ensures { result ≡ record { name_start = self.name_start; name_length = self.name_length; length = self.length; position = self.position; line_bases = self.line_bases; line_width = self.line_width; description_start = described_at start length; description_length = length } }
    {
        Record {
            description_start: described_at(start, length),
            description_length: length,
            ..self
        }
    }

    // The first base position.
    pub fn first() -> Position
        ensures { result ≡ record { 0 = 1 } }
    {
        Position(Record::FIRST)
    }

    // Where base `p` lies.
    pub fn offset_of(self, p: Position) -> Option<Offset>
        ensures { result ≡ address_of self p }
    {
        if p.0 < Record::FIRST || self.line_bases == 0 || self.line_width == 0 {
            return None;
        }
        let i = p.0 - Record::FIRST;
        fitting(
            self.position.0,
            i / self.line_bases,
            self.line_width,
            i % self.line_bases,
        )
    }
}
