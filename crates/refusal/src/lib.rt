// Why a call is refused: a case for each refusal (docs/RULES.md, R2), in words. Every promise of the project speaks of these cases.
// `Numbers` are what a host sees of one: its number, and its two numbers, 0 if the refusal has none.
#![tactic(auto)]

ghost use Rattle.std.specs.Prelude.{◌≡◌};
ghost use Rattle.refusal.specs.Numbers.{numbers_of, over_limit};

// Lines and records count from 1; rows, places and offsets from 0. A definition line that does not read has as its two numbers the offset
// where reading failed, and 0; in the checker they are the record, and that offset.
#[derive(Clone, Copy, Debug, PartialEq, Eq, Hash)]
pub enum Refusal {
    TooLong,
    EmptyDefinition { first: u64, second: u64 },
    NoPrefix { first: u64, second: u64 },
    NoName { first: u64, second: u64 },
    NoBases { offset: u64 },
    LineBases { found: u64, expected: u64 },
    LineWidth { found: u64, expected: u64 },
    TableFull { rows: u64 },
    EmptyIndexLine { line: u64 },
    FieldAbsent { line: u64, field: u64 },
    NotANumber { line: u64, field: u64 },
    ZeroField { line: u64, field: u64 },
    NameSplit { place: u64 },
    NoRoom { needed: u64 },
    NameUnknown,
    BadBounds,
    PastLength { length: u64 },
    NotInFile { base: u64 },
    LineAbsent { record: u64 },
    BytesLeft { records: u64 },
    NameDiffers { record: u64 },
    LengthDiffers { record: u64 },
    BaseElsewhere { record: u64, base: u64 },
    NoComplement { place: u64, byte: u64 },
    BadRow { row: u64 },
    AlreadyEnded,
    ZeroWidth,
    NameUnfit,
    DescriptionUnfit,
    BaseUnfit,
    MalformedExercise { offset: u64 },
    UnknownNeededTag { offset: u64 },
    UnknownEdition { offset: u64 },
    NotInWindow { base: u64 },
    WindowPastEnd,
    PrimerLength,
    PrimerLetter { place: u64 },
    NoPlusLine,
    QualityLine { found: u64, expected: u64 },
    TooManyRegions,
    TooFewStarts,
    NoIndexFits { offset: u64, base: u64 },
}

// A refusal as a host sees it.
#[derive(Clone, Copy, Debug, PartialEq, Eq, Hash)]
pub struct Numbers {
    pub refusal: u64,
    pub first: u64,
    pub second: u64,
}

// The most bytes that one lent input may have: 1 TiB.
pub const LIMIT: usize = 1099511627776;

// Is an input of so many bytes over the limit.
pub fn over_limit(length: usize) -> bool
    ensures { result ≡ over_limit length }
{
    LIMIT < length
}

fn told(refusal: u64, first: u64, second: u64) -> Numbers
    ensures { result ≡ record { refusal = refusal; first = first; second = second } }
{
    Numbers {
        refusal,
        first,
        second,
    }
}

impl From<Refusal> for Numbers {
    ghost from_gives = { λ f n. n ≡ numbers_of f };

    // Its number, and the two numbers.
    #[tactic(auto, unfolding(crate::specs::Numbers::numbers_of))]
    fn from(refusal: Refusal) -> Numbers {
        match refusal {
            Refusal::TooLong => told(1, 0, 0),
            Refusal::EmptyDefinition { first, second } => told(2, first, second),
            Refusal::NoPrefix { first, second } => told(3, first, second),
            Refusal::NoName { first, second } => told(4, first, second),
            Refusal::NoBases { offset } => told(5, offset, 0),
            Refusal::LineBases { found, expected } => told(6, found, expected),
            Refusal::LineWidth { found, expected } => told(7, found, expected),
            Refusal::TableFull { rows } => told(8, rows, 0),
            Refusal::EmptyIndexLine { line } => told(9, line, 0),
            Refusal::FieldAbsent { line, field } => told(10, line, field),
            Refusal::NotANumber { line, field } => told(11, line, field),
            Refusal::ZeroField { line, field } => told(12, line, field),
            Refusal::NameSplit { place } => told(13, place, 0),
            Refusal::NoRoom { needed } => told(14, needed, 0),
            Refusal::NameUnknown => told(15, 0, 0),
            Refusal::BadBounds => told(16, 0, 0),
            Refusal::PastLength { length } => told(17, length, 0),
            Refusal::NotInFile { base } => told(18, base, 0),
            Refusal::LineAbsent { record } => told(19, record, 0),
            Refusal::BytesLeft { records } => told(20, records, 0),
            Refusal::NameDiffers { record } => told(21, record, 0),
            Refusal::LengthDiffers { record } => told(22, record, 0),
            Refusal::BaseElsewhere { record, base } => told(23, record, base),
            Refusal::NoComplement { place, byte } => told(24, place, byte),
            Refusal::BadRow { row } => told(25, row, 0),
            Refusal::AlreadyEnded => told(26, 0, 0),
            Refusal::ZeroWidth => told(27, 0, 0),
            Refusal::NameUnfit => told(28, 0, 0),
            Refusal::DescriptionUnfit => told(29, 0, 0),
            Refusal::BaseUnfit => told(30, 0, 0),
            Refusal::MalformedExercise { offset } => told(31, offset, 0),
            Refusal::UnknownNeededTag { offset } => told(32, offset, 0),
            Refusal::UnknownEdition { offset } => told(33, offset, 0),
            Refusal::NotInWindow { base } => told(34, base, 0),
            Refusal::WindowPastEnd => told(35, 0, 0),
            Refusal::PrimerLength => told(36, 0, 0),
            Refusal::PrimerLetter { place } => told(37, place, 0),
            Refusal::NoPlusLine => told(38, 0, 0),
            Refusal::QualityLine { found, expected } => told(39, found, expected),
            Refusal::TooManyRegions => told(40, 0, 0),
            Refusal::TooFewStarts => told(41, 0, 0),
            Refusal::NoIndexFits { offset, base } => told(42, offset, base),
        }
    }
}
