// The line that waits for its next byte, by numbers: how it grows with further bytes, and what it says as a definition. It keeps no byte.
ghost use Rattle.std.specs.Prelude.{◌≡◌, ◌+◌, ◌≤◌, ◌<◌, ◌^◌, length, drop, eqb};
ghost use Rattle.lines.specs.Lines.{chop, ends, begins};
ghost use Rattle.indexer.specs.LineSums.{grow, sum_says, blank};
ghost use Rattle.feeder.specs.Waiting.{unpack, no_line, grow_by};

use crate::Waiting;
use definition::{Definition, Fault};
use lines::Span;

// Do some bytes end in LF.
fn ends_line(l: &[u8]) -> bool
    ensures { result ≡ ends 10 l.now }
{
    let n = l.len();
    if n == 0 {
        return false;
    }
    l[n - 1] == b'\n'
}

// Is nothing left of some bytes without a final LF.
fn is_end_alone(l: &[u8]) -> bool
    ensures { result ≡ eqb (length (chop 10 l.now)) 0 }
{
    let n = l.len();
    if n == 0 {
        return true;
    }
    if n == 1 {
        return l[0] == b'\n';
    }
    false
}

// Do some bytes begin with '>'.
fn begins_record(l: &[u8]) -> bool
    ensures { result ≡ begins l.now }
{
    if l.len() == 0 {
        return false;
    }
    l[0] == b'>'
}

// An open line's bases with further bytes.
fn grown_bases(t: Waiting, l: &[u8]) -> usize
    requires { t.width + length l.now < 2 ^ 63 }
    ensures { result ≡ (grow (unpack t) l.now).line.bases }
{
    if is_end_alone(l) {
        return t.bases;
    }
    t.width + lines::base_count(l)
}

// Does it begin with '>'.
fn grown_starts(t: Waiting, l: &[u8]) -> bool
    ensures { result ≡ (grow (unpack t) l.now).starts }
{
    if t.width == 0 {
        return begins_record(l);
    }
    t.starts
}

// The bytes of its name.
fn grown_name(t: Waiting, l: &[u8]) -> usize
    requires { (t.width + length l.now < 2 ^ 63) × (t.name ≤ t.width) }
    ensures { result ≡ (grow (unpack t) l.now).name }
{
    if t.width == 0 {
        return definition::run_end(l, 1, false) - 1;
    }
    if t.name + 1 == t.width {
        return t.name + definition::run_end(l, 0, false);
    }
    t.name
}

// Where its description would begin.
fn grown_text(t: Waiting, l: &[u8]) -> usize
    requires { (t.width + length l.now < 2 ^ 63) × (t.name ≤ t.width) }
    ensures { result ≡ (grow (unpack t) l.now).text }
{
    if t.width == 0 {
        return definition::run_end(l, definition::run_end(l, 1, false), true);
    }
    if t.name + 1 == t.width {
        return t.width + definition::run_end(l, definition::run_end(l, 0, false), true);
    }
    if t.text == t.width {
        return t.width + definition::run_end(l, 0, true);
    }
    t.text
}

// How many bytes it has up to the last that is no whitespace.
fn grown_kept(t: Waiting, l: &[u8]) -> usize
    requires { t.width + length l.now < 2 ^ 63 }
    ensures { result ≡ (grow (unpack t) l.now).kept }
{
    let k = definition::kept_end(l, 0);
    if k == 0 {
        return t.kept;
    }
    t.width + k
}

// No bytes yet.
pub(crate) fn no_line() -> Waiting
    ensures { result ≡ no_line }
{
    Waiting {
        width: 0,
        bases: 0,
        whole: false,
        starts: false,
        name: 0,
        text: 0,
        kept: 0,
    }
}

// An open line with further bytes.
pub(crate) fn grown(t: Waiting, l: &[u8]) -> Waiting
    requires { (t.width + length l.now < 2 ^ 63) × (t.name ≤ t.width) }
    ensures { result ≡ grow_by t l.now }
{
    let width = t.width + l.len();
    let bases = grown_bases(t, l);
    let whole = ends_line(l);
    if grown_starts(t, l) {
        let name = grown_name(t, l);
        let text = grown_text(t, l);
        let kept = grown_kept(t, l);
        return Waiting {
            width,
            bases,
            whole,
            starts: true,
            name,
            text,
            kept,
        };
    }
    Waiting {
        width,
        bases,
        whole,
        starts: false,
        name: 0,
        text: 0,
        kept: 0,
    }
}

// Is nothing left of a line without its end.
fn is_blank(t: Waiting) -> bool
    ensures { result ≡ blank (unpack t) }
{
    if t.whole {
        return t.bases == 0;
    }
    t.width == 0
}

// What a line says as a definition.
pub(crate) fn says(t: Waiting) -> Result<Definition, Fault>
    ensures { result ≡ sum_says (unpack t) }
{
    if is_blank(t) {
        return Err(Fault::Empty);
    }
    if t.starts {
        if t.name == 0 {
            return Err(Fault::NoName);
        }
        let name = Span {
            start: 1,
            length: t.name,
        };
        if t.kept <= t.text {
            return Ok(Definition {
                name,
                description: Span {
                    start: 0,
                    length: 0,
                },
            });
        }
        return Ok(Definition {
            name,
            description: Span {
                start: t.text,
                length: t.kept - t.text,
            },
        });
    }
    Err(Fault::NoPrefix)
}
