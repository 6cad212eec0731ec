// Entry points on one line: a definition line, a line of a file, an index line.
ghost use Rattle.std.specs.Prelude.{◌≡◌};
ghost use Rattle.definition.specs.Definition.{line_read, content_read};
ghost use Rattle.index_line.specs.IndexLine.{read_line, read_content};
ghost use Rattle.wakeluri.specs.Answer.{definition_answer, entry_answer};
ghost use Rattle.wakeluri.specs.Told.{line_told};

use crate::answer;
use crate::answer::{DefinitionAnswer, RowAnswer, SpanAnswer};
use lines::Cursor;
use refusal::{Numbers, Refusal};

// What a definition line says, given with its end.
pub fn wakeluri_definition_line(line: &[u8]) -> DefinitionAnswer
    ensures { result ≡ definition_answer (line_read line.now) }
{
    DefinitionAnswer::from(definition::read_line(line))
}

// What the content of a definition line says, without its end.
pub fn wakeluri_definition_content(content: &[u8]) -> DefinitionAnswer
    ensures { result ≡ definition_answer (content_read content.now) }
{
    DefinitionAnswer::from(definition::read_content(content))
}

// The content of the line at an offset.
pub fn wakeluri_read_line(file: &[u8], at: u64) -> SpanAnswer
    ensures { result ≡ line_told file.now at }
{
    if refusal::over_limit(file.len()) {
        return answer::span_answer(Numbers::from(Refusal::TooLong), 0, answer::no_span(), 0);
    }
    SpanAnswer::from(Cursor { at: at as usize }.read_line(file))
}

// What an index line says, given with its end.
pub fn wakeluri_index_line(line: &[u8]) -> RowAnswer
    ensures { result ≡ entry_answer (read_line line.now) }
{
    RowAnswer::from(index_line::read_line(line))
}

// What the content of an index line says, without its end.
pub fn wakeluri_index_content(content: &[u8]) -> RowAnswer
    ensures { result ≡ entry_answer (read_content content.now) }
{
    RowAnswer::from(index_line::read_content(content))
}
