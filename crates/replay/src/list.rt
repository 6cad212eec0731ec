// The list's form: numbers, low byte first, and the parts of a record. Every function takes anything: a byte that isn't there is 0,
// and a part that isn't there is empty.
ghost use Rattle.std.specs.Prelude.{◌<◌};

// The number of some bytes, at most eight.
pub fn number(bytes: &[u8]) -> u64 {
    bytes.iter().rev().fold(0, |n, &b| n << 8 | u64::from(b))
}

// A question, and its answer.
#[derive(Clone, Copy)]
pub struct Record<'a> {
    // The bytes that are asked about.
    pub asked: &'a [u8],
    // The table that is read.
    pub table: &'a [u8],
    // The other numbers of the question.
    pub numbers: &'a [u8],
    // The answer in numbers.
    pub told: &'a [u8],
    // What is lent to be written, as it is before.
    pub lent: &'a [u8],
    // The same afterwards, if the answer has it.
    pub left: &'a [u8],
}

// The place that a record gives by its number, of two bytes.
fn place(record: &[u8], i: usize) -> usize {
    record.chunks(2).nth(i).map_or(0, number) as usize
}

// One of the six parts of a record, by its number: it lies between its place and the next part's.
fn part(record: &[u8], i: usize) -> &[u8]
    requires { i < 6 }
{
    record
        .get(place(record, i)..place(record, i + 1))
        .unwrap_or(&[])
}

impl<'a> Record<'a> {
    pub fn new(record: &'a [u8]) -> Record<'a> {
        Record {
            asked: part(record, 0),
            table: part(record, 1),
            numbers: part(record, 2),
            told: part(record, 3),
            lent: part(record, 4),
            left: part(record, 5),
        }
    }

    // One of the other numbers of the question.
    pub fn number(&self, i: usize) -> u64 {
        self.numbers.chunks(8).nth(i).map_or(0, number)
    }

    // Whether the answer has these numbers, of which the first three are the refusal and its own. What the answer doesn't have agrees with any,
    // but for the refusal.
    pub fn tells(&self, numbers: &[u64]) -> bool {
        !self.told.is_empty()
            && self
                .told
                .chunks(8)
                .zip(numbers)
                .all(|(told, &n)| number(told) == n)
    }
}
