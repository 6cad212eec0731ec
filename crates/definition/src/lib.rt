// A definition line: '>', a name, whitespace, and a description. Refuses an empty line (2), a line without '>' (3), and one without a name
// (4). The two calls at the bottom also refuse bytes over the size limit (1).
#![tactic(auto)]

ghost use Rattle.std.specs.Prelude.{◌≡◌, IsTrue, false, ◌+◌, ◌≤◌, length, drop};
ghost use Rattle.lines.specs.Lines.{content_of};
ghost use Rattle.definition.specs.Low.{any_low};
ghost use Rattle.definition.specs.Definition.{is_space, spaced, run, keep, marked_says, content_says, definition_says, fails_at, refusal_of, read_as, content_read, line_read};

use lines::Span;
use refusal::Refusal;

// The places of a name and of a description, counted from the line's start; 0 and 0 if there is no description.
#[derive(Clone, Copy)]
pub struct Definition {
    pub name: Span,
    pub description: Span,
}

// What is wrong with a definition line.
#[derive(Clone, Copy)]
pub enum Fault {
    Empty,
    NoPrefix,
    NoName,
}

// Space, tab, LF, form feed or CR, but no vertical tab.
#[tactic(auto, unfolding(crate::specs::Definition::is_space))]
pub fn is_space(b: u8) -> bool
    ensures { result ≡ is_space b }
{
    // `matches!` was tried: of it the compiler makes twice the instructions for a byte of a name.
    b == b' ' || b == b'\t' || b == b'\n' || b == b'\x0c' || b == b'\r'
}

// The end of the run of whitespace from `at` on, or of the run of other bytes: byte by byte.
fn run_end_near(l: &[u8], at: usize, space: bool) -> usize
    ensures { result ≡ at + run (spaced space) (drop at l.now) }
{
    for i in at..l.len() {
        if is_space(l[i]) != space {
            return i;
        }
    }
    at.max(l.len())
}

// Are there N bytes from `at` on, none of which is low: a space, or less, as all whitespace is. The loop never stops early, so the compiler looks at
// all of them at once.
fn are_high<const N: usize>(l: &[u8], at: usize) -> bool
    requires { at ≤ length l.now }
    ensures enough { IsTrue result → at + N ≤ length l.now }
    ensures high { IsTrue result → any_low N (drop at l.now) ≡ false }
{
    if l.len() - at < N {
        return false;
    }
    let mut low = false;
    for &b in &l[at..at + N] {
        low |= b < 33;
    }
    !low
}

// The end of the bytes from `at` on that are no whitespace, by blocks of 16: most of a long name have no low byte. Example: a name of 47 bytes is two
// such blocks, 8 bytes, 4, and three that are looked at one by one.
fn word_end(l: &[u8], at: usize) -> usize
    ensures { result ≡ at + run (spaced false) (drop at l.now) }
{
    if l.len() <= at {
        return at;
    }
    let mut i = at;
    // the place is needed behind the loop, and a `for` would first have to count the blocks
    while are_high::<16>(l, i) {
        i += 16;
    }
    if are_high::<8>(l, i) {
        i += 8;
    }
    if are_high::<4>(l, i) {
        i += 4;
    }
    run_end_near(l, i, false)
}

// The end of the run of whitespace from `at` on, or of the run of other bytes.
// `space` stays a parameter: its clause, which docs/PROMISES.md names, speaks of both kinds of run by it.
pub fn run_end(l: &[u8], at: usize, space: bool) -> usize
    ensures { result ≡ at + run (spaced space) (drop at l.now) }
{
    if space {
        return run_end_near(l, at, space);
    }
    word_end(l, at)
}

// The end of the bytes from `at` on without the whitespace at their end; `at` if there are none.
pub fn kept_end(l: &[u8], at: usize) -> usize
    ensures { result ≡ at + keep is_space (drop at l.now) }
{
    for i in (at..l.len()).rev() {
        if !is_space(l[i]) {
            return i + 1;
        }
    }
    at
}

// What the content of a definition line says, which begins with a mark. The content is the line without its end.
fn parse_content(content: &[u8], mark: u8) -> Result<Definition, Fault>
    ensures { result ≡ marked_says mark content.now }
{
    if content.is_empty() {
        return Err(Fault::Empty);
    }
    if content[0] != mark {
        return Err(Fault::NoPrefix);
    }
    let n = run_end(content, 1, false);
    if n == 1 {
        return Err(Fault::NoName);
    }
    let name = Span {
        start: 1,
        length: n - 1,
    };
    let d = run_end(content, n, true);
    let k = kept_end(content, d);
    if k == d {
        return Ok(Definition {
            name,
            description: Span {
                start: 0,
                length: 0,
            },
        });
    }
    Ok(Definition {
        name,
        description: Span {
            start: d,
            length: k - d,
        },
    })
}

// What the content of a definition line says.
fn parse_definition(content: &[u8]) -> Result<Definition, Fault>
    ensures { result ≡ content_says content.now }
{
    parse_content(content, b'>')
}

// What a definition line says, which begins with a mark and is given with its end. A FASTQ file's mark is '@'.
pub fn parse_marked(l: &[u8], mark: u8) -> Result<Definition, Fault>
    ensures { result ≡ marked_says mark (content_of l.now) }
{
    let e = lines::content_length(l);
    parse_content(&l[..e], mark)
}

// What a definition line says, given with its end.
pub fn parse_line(l: &[u8]) -> Result<Definition, Fault>
    ensures { result ≡ definition_says l.now }
{
    parse_marked(l, b'>')
}

impl Fault {
    // The place in the line where reading it failed.
    #[tactic(auto, unfolding(crate::specs::Definition::fails_at))]
    pub fn place(self) -> usize
        ensures { result ≡ fails_at self }
    {
        match self {
            Fault::Empty => 0,
            Fault::NoPrefix => 0,
            Fault::NoName => 1,
        }
    }

    // The refusal of a line without a name. Its two numbers are the offset of that place, and 0; in the checker the record, and that offset.
    // The caller knows where the line begins.
    #[tactic(auto, unfolding(crate::specs::Definition::refusal_of))]
    pub fn refusal(self, first: u64, second: u64) -> Refusal
        ensures { result ≡ refusal_of self first second }
    {
        match self {
            Fault::Empty => Refusal::EmptyDefinition { first, second },
            Fault::NoPrefix => Refusal::NoPrefix { first, second },
            Fault::NoName => Refusal::NoName { first, second },
        }
    }
}

#[tactic(auto, unfolding(crate::specs::Definition::read_as))]
fn read(p: Result<Definition, Fault>) -> Result<Definition, Refusal>
    ensures { result ≡ read_as p }
{
    match p {
        Ok(d) => Ok(d),
        Err(f) => Err(f.refusal(f.place() as u64, 0)),
    }
}

// Reads the content of a definition line. This and `read_line` stay two: one function that takes the parser as a closure is as long as both.
#[tactic(auto, unfolding(crate::specs::Definition::content_read))]
pub fn read_content(content: &[u8]) -> Result<Definition, Refusal>
    ensures { result ≡ content_read content.now }
{
    if refusal::over_limit(content.len()) {
        return Err(Refusal::TooLong);
    }
    read(parse_definition(content))
}

// Reads a definition line with its end.
#[tactic(auto, unfolding(crate::specs::Definition::line_read))]
pub fn read_line(l: &[u8]) -> Result<Definition, Refusal>
    ensures { result ≡ line_read l.now }
{
    if refusal::over_limit(l.len()) {
        return Err(Refusal::TooLong);
    }
    read(parse_line(l))
}
