// The exports of wakeluri's text.rt.
ghost use Rattle.std.specs.Prelude.{◌≡◌};
ghost use Rattle.definition.specs.Definition.{line_read, content_read};
ghost use Rattle.index_line.specs.IndexLine.{read_line, read_content};
ghost use Rattle.wakeluri.specs.Answer.{definition_answer, entry_answer};
ghost use Rattle.wakeluri.specs.Told.{line_told};

use wakeluri::answer::{DefinitionAnswer, RowAnswer, SpanAnswer};

// What a definition line says, given with its end.
#[unsafe(no_mangle)]
pub extern "C" fn wakeluri_definition_line(line: &[u8]) -> DefinitionAnswer
    ensures { result ≡ definition_answer (line_read line.now) }
{
    wakeluri::text::wakeluri_definition_line(line)
}

// What the content of a definition line says, without its end.
#[unsafe(no_mangle)]
pub extern "C" fn wakeluri_definition_content(content: &[u8]) -> DefinitionAnswer
    ensures { result ≡ definition_answer (content_read content.now) }
{
    wakeluri::text::wakeluri_definition_content(content)
}

// The content of the line at an offset.
#[unsafe(no_mangle)]
pub extern "C" fn wakeluri_read_line(file: &[u8], at: u64) -> SpanAnswer
    ensures { result ≡ line_told file.now at }
{
    wakeluri::text::wakeluri_read_line(file, at)
}

// What an index line says, given with its end.
#[unsafe(no_mangle)]
pub extern "C" fn wakeluri_index_line(line: &[u8]) -> RowAnswer
    ensures { result ≡ entry_answer (read_line line.now) }
{
    wakeluri::text::wakeluri_index_line(line)
}

// What the content of an index line says, without its end.
#[unsafe(no_mangle)]
pub extern "C" fn wakeluri_index_content(content: &[u8]) -> RowAnswer
    ensures { result ≡ entry_answer (read_content content.now) }
{
    wakeluri::text::wakeluri_index_content(content)
}
