// The lines of a file: what a line holds, and a cursor that moves on by a line. `ends` finds where a line ends; `alike` counts lines in a
// row that are alike, many of them at once by `abreast`. All that knows of LF and CR is here. Every function takes any bytes and any place, and refuses nothing: where
// there is no line, the answer says so.
#![tactic(auto)]

mod abreast;
pub mod alike;
mod blocks;
pub mod ends;

ghost use Rattle.std.specs.Prelude.{◌≡◌, length};
ghost use Rattle.lines.specs.Lines.{chop, bases_of, content_of, first_line, seq_at, none, read_line};

// A line: all its bytes, and its bases.
#[derive(Clone, Copy)]
pub struct Line {
    pub width: usize,
    pub bases: usize,
}

// Some bytes in a row, by their place in those that hold them.
#[derive(Clone, Copy)]
pub struct Span {
    pub start: usize,
    pub length: usize,
}

// A place in a file.
#[derive(Clone, Copy)]
pub struct Cursor {
    pub at: usize,
}

// How many bytes are left of `l` without a final `b`.
fn chopped(l: &[u8], b: u8) -> usize
    ensures { result ≡ length (chop b l.now) }
{
    let n = l.len();
    if 0 < n {
        let last = n - 1;
        if l[last] == b {
            return last;
        }
    }
    n
}

// How many bases a line has: its bytes without the LF, and without one final CR.
pub fn base_count(l: &[u8]) -> usize
    ensures { result ≡ length (bases_of l.now) }
{
    let t = chopped(l, b'\n');
    chopped(&l[..t], b'\r')
}

// How many bytes a line's content has: without the LF, and only if there was one, without one CR before it.
pub fn content_length(l: &[u8]) -> usize
    ensures { result ≡ length (content_of l.now) }
{
    let n = l.len();
    let e = chopped(l, b'\n');
    if e == n {
        return n;
    }
    chopped(&l[..e], b'\r')
}

// Is there no sequence line at `at`: the end of the file, or a '>'.
pub fn sequence_ends(s: &[u8], at: usize) -> bool
    ensures { result ≡ none (seq_at s.now at) }
{
    if at < s.len() { s[at] == b'>' } else { true }
}

// The sequence line at `at`; 0 and 0 where there is none.
// No Option: the definition `first_line`, of which its clause and the laws of the fast ways speak, gives 0 and 0 where there is no line.
pub fn sequence_line(s: &[u8], at: usize) -> Line
    ensures { result ≡ first_line (seq_at s.now at) }
{
    if sequence_ends(s, at) {
        return Line { width: 0, bases: 0 };
    }
    let e = ends::line_end(s, at);
    let bases = base_count(&s[at..e]);
    Line {
        width: e - at,
        bases,
    }
}

impl Cursor {
    // The start of a file.
    pub fn start() -> Self
        ensures { result ≡ record { at = 0 } }
    {
        Cursor { at: 0 }
    }

    // Reads the line at the cursor: its content, and the cursor behind it.
    pub fn read_line(self, s: &[u8]) -> Option<(Span, Cursor)>
        ensures { result ≡ read_line s.now self }
    {
        let at = self.at;
        if s.len() <= at {
            return None;
        }
        let e = ends::line_end(s, at);
        let content = content_length(&s[at..e]);
        Some((
            Span {
                start: at,
                length: content,
            },
            Cursor { at: e },
        ))
    }
}
