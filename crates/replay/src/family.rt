// The families of questions, and whether the entry point of each gives the original's answers.
use crate::list::Record;
use wakeluri::answer::{Answer, DefinitionAnswer, RowAnswer, SpanAnswer};
use wakeluri::{bases, files, rows, scan, text};

#[derive(Clone, Copy)]
pub enum Family {
    DefinitionLine,
    DefinitionContent,
    Line,
    Run,
    IndexRecord,
    IndexContent,
    Sequence,
    SequenceLimit,
    WriteIndexLine,
    Raw,
    Complement,
    ReverseComplement,
    IndexFile,
    ReadIndex,
}

// Every family with its name, in the order of the list.
pub const FAMILIES: [(Family, &str); 14] = [
    (Family::DefinitionLine, "def"),
    (Family::DefinitionContent, "dfc"),
    (Family::Line, "lin"),
    (Family::Run, "run"),
    (Family::IndexRecord, "rec"),
    (Family::IndexContent, "ixc"),
    (Family::Sequence, "seq"),
    (Family::SequenceLimit, "lim"),
    (Family::WriteIndexLine, "wrl"),
    (Family::Raw, "rar"),
    (Family::Complement, "cmp"),
    (Family::ReverseComplement, "rev"),
    (Family::IndexFile, "idx"),
    (Family::ReadIndex, "ixt"),
];

// A name and a description.
fn tells_definition(record: &Record, a: DefinitionAnswer) -> bool {
    record.tells(&[
        a.refusal,
        a.first,
        a.second,
        a.name_start,
        a.name_length,
        a.description_start,
        a.description_length,
    ])
}

// A line that is found or not, and the place behind it.
fn tells_line(record: &Record, a: SpanAnswer) -> bool {
    record.tells(&[
        a.refusal, a.first, a.second, a.found, a.start, a.length, a.next,
    ])
}

// A run of bases.
fn tells_run(record: &Record, a: SpanAnswer) -> bool {
    record.tells(&[a.refusal, a.first, a.second, a.start, a.length])
}

// A record that is found or not, and the place behind it.
fn tells_record(record: &Record, a: RowAnswer) -> bool {
    record.tells(&[
        a.refusal,
        a.first,
        a.second,
        a.found,
        a.name_start,
        a.name_length,
        a.length,
        a.position,
        a.line_bases,
        a.line_width,
        a.description_start,
        a.description_length,
        a.next,
    ])
}

// What an index line says.
fn tells_index_line(record: &Record, a: RowAnswer) -> bool {
    record.tells(&[
        a.refusal,
        a.first,
        a.second,
        a.name_start,
        a.name_length,
        a.length,
        a.position,
        a.line_bases,
        a.line_width,
        a.description_start,
        a.description_length,
    ])
}

// A call that writes an output, or fills a table: a count and the place that a read leaves, and what is then left of what was lent, if the
// list has it.
fn writes<Call: FnOnce(&mut [u8]) -> Answer>(record: &Record, room: &mut [u8], call: Call) -> bool
    requires { Call.IsAlwaysCallable call }
{
    let Some(out) = room.get_mut(..record.lent.len()) else {
        return false;
    };
    out.copy_from_slice(record.lent);
    let a = call(out);
    record.tells(&[a.refusal, a.first, a.second, a.count, a.next])
        && (record.left.is_empty() || record.left == out)
}

impl Family {
    // Whether a question has the original's answer, with room for what is lent.
    pub fn alike(self, record: &Record, room: &mut [u8]) -> bool {
        let asked = record.asked;
        let table = record.table;
        let number = |i| record.number(i);
        match self {
            Family::DefinitionLine => {
                tells_definition(record, text::wakeluri_definition_line(asked))
            }
            Family::DefinitionContent => {
                tells_definition(record, text::wakeluri_definition_content(asked))
            }
            Family::Line => tells_line(record, text::wakeluri_read_line(asked, number(0))),
            Family::Run => tells_run(record, scan::wakeluri_read_run(asked, number(0))),
            Family::IndexRecord => {
                tells_record(record, files::wakeluri_index_record(asked, number(0)))
            }
            Family::IndexContent => {
                tells_index_line(record, text::wakeluri_index_content(asked))
            }
            Family::Sequence => writes(record, room, |out| {
                scan::wakeluri_read_sequence(asked, number(0), out)
            }),
            Family::SequenceLimit => writes(record, room, |out| {
                scan::wakeluri_read_sequence_limit(asked, number(0), number(1), out)
            }),
            Family::WriteIndexLine => writes(record, room, |out| {
                rows::wakeluri_write_index_line(asked, table, number(0), number(1), out)
            }),
            Family::Raw => writes(record, room, |out| {
                rows::wakeluri_read_raw(
                    asked,
                    table,
                    number(0),
                    number(1),
                    number(2),
                    number(3),
                    number(4),
                    number(5),
                    out,
                )
            }),
            Family::Complement => {
                writes(record, room, |out| bases::wakeluri_complement(asked, out))
            }
            Family::ReverseComplement => writes(record, room, |out| {
                bases::wakeluri_reverse_complement(asked, out)
            }),
            Family::IndexFile => {
                writes(record, room, |out| files::wakeluri_index_file(asked, out))
            }
            Family::ReadIndex => {
                writes(record, room, |out| files::wakeluri_read_index(asked, out))
            }
        }
    }
}
