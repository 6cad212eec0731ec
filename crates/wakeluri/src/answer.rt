// Answers as a host gets them, and each call's answer as one of them.
ghost use Rattle.std.specs.Prelude.{◌≡◌};
ghost use Rattle.wakeluri.specs.Answer.{fine, no_span, no_record, answer_of, definition_of, span_of, row_told, written_answer, sequence_answer, filled_answer, verdict_answer, definition_answer, line_answer, entry_answer, step_answer};

use definition::Definition;
use index_line::Entry;
use lines::{Cursor, Span};
use record::{Offset, Record};
use refusal::{Numbers, Refusal};
use table::Filled;

// A refusal, 0 if there is none; a count (of bytes or of rows, or a row's number), and the place where a read stopped.
#[repr(C)]
#[derive(Clone, Copy)]
pub struct Answer {
    pub refusal: u64,
    pub first: u64,
    pub second: u64,
    pub count: u64,
    pub next: u64,
}

// A name and a description by their places in a definition line; 0 and 0 if there is no description.
#[repr(C)]
#[derive(Clone, Copy)]
pub struct DefinitionAnswer {
    pub refusal: u64,
    pub first: u64,
    pub second: u64,
    pub name_start: u64,
    pub name_length: u64,
    pub description_start: u64,
    pub description_length: u64,
}

// Some bytes of a file by their place, and the place behind them; `found` is 0 if there is no line.
#[repr(C)]
#[derive(Clone, Copy)]
pub struct SpanAnswer {
    pub refusal: u64,
    pub first: u64,
    pub second: u64,
    pub found: u64,
    pub start: u64,
    pub length: u64,
    pub next: u64,
}

// A record's row, and the offset behind the record; `found` is 0 at the end of a file, and `plain` is 1 for a plain index line that was
// given with its end.
#[repr(C)]
#[derive(Clone, Copy)]
pub struct RowAnswer {
    pub refusal: u64,
    pub first: u64,
    pub second: u64,
    pub found: u64,
    pub next: u64,
    pub plain: u64,
    pub name_start: u64,
    pub name_length: u64,
    pub length: u64,
    pub position: u64,
    pub line_bases: u64,
    pub line_width: u64,
    pub description_start: u64,
    pub description_length: u64,
}

// No refusal.
pub(crate) fn fine() -> Numbers
    ensures { result ≡ fine }
{
    Numbers {
        refusal: 0,
        first: 0,
        second: 0,
    }
}

// No bytes.
pub(crate) fn no_span() -> Span
    ensures { result ≡ no_span }
{
    Span {
        start: 0,
        length: 0,
    }
}

// No record.
pub(crate) fn no_record() -> Record
    ensures { result ≡ no_record }
{
    Record::unnamed(0, Offset(0), 0, 0)
}

// The four structs, field by field.
pub(crate) fn count_answer(n: Numbers, count: usize, next: usize) -> Answer
    ensures { result ≡ answer_of n count next }
{
    Answer {
        refusal: n.refusal,
        first: n.first,
        second: n.second,
        count: count as u64,
        next: next as u64,
    }
}

fn definition_answer(n: Numbers, name: Span, description: Span) -> DefinitionAnswer
    ensures { result ≡ definition_of n name description }
{
    DefinitionAnswer {
        refusal: n.refusal,
        first: n.first,
        second: n.second,
        name_start: name.start as u64,
        name_length: name.length as u64,
        description_start: description.start as u64,
        description_length: description.length as u64,
    }
}

pub(crate) fn span_answer(n: Numbers, found: u64, span: Span, next: usize) -> SpanAnswer
    ensures { result ≡ span_of n found span next }
{
    SpanAnswer {
        refusal: n.refusal,
        first: n.first,
        second: n.second,
        found,
        start: span.start as u64,
        length: span.length as u64,
        next: next as u64,
    }
}

fn row_answer(n: Numbers, found: u64, next: usize, plain: u64, x: Record) -> RowAnswer
    ensures { result ≡ row_told n found next plain x }
{
    RowAnswer {
        refusal: n.refusal,
        first: n.first,
        second: n.second,
        found,
        next: next as u64,
        plain,
        name_start: x.name_start,
        name_length: x.name_length,
        length: x.length,
        position: x.position.0,
        line_bases: x.line_bases,
        line_width: x.line_width,
        description_start: x.description_start,
        description_length: x.description_length,
    }
}

// How many bytes were written; or which row was found.
impl From<Result<usize, Refusal>> for Answer {
    ghost from_gives = { λ r told. told ≡ written_answer r };

    #[tactic(auto, unfolding(crate::specs::Answer::written_answer))]
    fn from(r: Result<usize, Refusal>) -> Answer {
        match r {
            Ok(n) => count_answer(fine(), n, 0),
            Err(f) => count_answer(Numbers::from(f), 0, 0),
        }
    }
}

// How many bases were read, and the place where the read stopped.
impl From<Result<(usize, Cursor), Refusal>> for Answer {
    ghost from_gives = { λ r told. told ≡ sequence_answer r };

    #[tactic(auto, unfolding(crate::specs::Answer::sequence_answer))]
    fn from(r: Result<(usize, Cursor), Refusal>) -> Answer {
        match r {
            Ok((count, next)) => count_answer(fine(), count, next.at),
            Err(why) => count_answer(Numbers::from(why), 0, 0),
        }
    }
}

// How many rows the table has now.
impl From<Filled> for Answer {
    ghost from_gives = { λ r told. told ≡ filled_answer r.rows r.stop };

    #[tactic(auto, unfolding(crate::specs::Answer::filled_answer))]
    fn from(r: Filled) -> Answer {
        let stop = r.stop;
        match stop {
            Ok(()) => count_answer(fine(), r.rows, 0),
            Err(f) => count_answer(Numbers::from(f), r.rows, 0),
        }
    }
}

// Whether an index was accepted.
impl From<Result<(), Refusal>> for Answer {
    ghost from_gives = { λ r told. told ≡ verdict_answer r };

    #[tactic(auto, unfolding(crate::specs::Answer::verdict_answer))]
    fn from(r: Result<(), Refusal>) -> Answer {
        match r {
            Ok(()) => count_answer(fine(), 0, 0),
            Err(fault) => count_answer(Numbers::from(fault), 0, 0),
        }
    }
}

// What a definition line says.
impl From<Result<Definition, Refusal>> for DefinitionAnswer {
    ghost from_gives = { λ r told. told ≡ definition_answer r };

    #[tactic(auto, unfolding(crate::specs::Answer::definition_answer))]
    fn from(r: Result<Definition, Refusal>) -> DefinitionAnswer {
        match r {
            Ok(d) => {
                let name = d.name;
                let description = d.description;
                definition_answer(fine(), name, description)
            }
            Err(f) => definition_answer(Numbers::from(f), no_span(), no_span()),
        }
    }
}

// A line's content, and the place behind the line.
impl From<Option<(Span, Cursor)>> for SpanAnswer {
    ghost from_gives = { λ r told. told ≡ line_answer r };

    #[tactic(auto, unfolding(crate::specs::Answer::line_answer))]
    fn from(r: Option<(Span, Cursor)>) -> SpanAnswer {
        match r {
            Some((s, c)) => span_answer(fine(), 1, s, c.at),
            None => span_answer(fine(), 0, no_span(), 0),
        }
    }
}

// An index line's record, and whether the line is plain.
impl From<Result<Entry, Refusal>> for RowAnswer {
    ghost from_gives = { λ r told. told ≡ entry_answer r };

    #[tactic(auto, unfolding(crate::specs::Answer::entry_answer))]
    fn from(r: Result<Entry, Refusal>) -> RowAnswer {
        match r {
            Ok(e) => {
                let x = e.record;
                row_answer(fine(), 1, 0, u64::from(e.plain), x)
            }
            Err(f) => row_answer(Numbers::from(f), 0, 0, 0, no_record()),
        }
    }
}

// A record's row, and the place behind the record.
impl From<indexer::Step> for RowAnswer {
    ghost from_gives = { λ r told. told ≡ step_answer r };

    #[tactic(auto, unfolding(crate::specs::Answer::step_answer))]
    fn from(r: indexer::Step) -> RowAnswer {
        let found = r.answer;
        match found {
            Ok(Some(x)) => row_answer(fine(), 1, r.next.at, 0, x),
            Ok(None) => row_answer(fine(), 0, 0, 0, no_record()),
            Err(why) => row_answer(Numbers::from(why), 0, 0, 0, no_record()),
        }
    }
}
