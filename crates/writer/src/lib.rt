// A FASTA record, written: '>', the name, and where there is a description one space and it; LF; then the bases in lines of a width,
// each with LF. Refused, in this order: 1, bytes over the limit; 27, a width of 0; 28, a name that is empty or has whitespace; 29, a
// description that is there and is empty, has an LF, or begins or ends in whitespace; 30, a base that is LF, CR or '>'; 14, no room.
// A record that is longer than the memory at hand is written in pieces: `write_record` with the first of its bases, then `write_sequence`
// with the next ones. Pieces of whole lines join to the record that one call would write (specs/Pieces.antt).
#![tactic(auto)]

ghost use Rattle.std.specs.Prelude.{◌≡◌, true, false, ◌&&◌, ◌+◌, ◌≤◌, ◌<◌, length, is_some};
ghost use Rattle.definition.specs.Definition.{is_space};
ghost use Rattle.columns.specs.Bytes.{is, overlaid};
ghost use Rattle.output.specs.Outcome.{leaves};
ghost use Rattle.writer.specs.Text.{any_of, name_unfit, description_unfit, barred, described_text, definition_text, sequence_text, too_long, record_written, sequence_written, Put, lent};

use refusal::Refusal;

// How many bases are looked at at once.
const BLOCK: usize = 1024;

// Is a byte no base: LF, CR or '>'.
fn is_barred(b: u8) -> bool
    ensures { result ≡ barred b }
{
    (b == b'\n') | (b == b'\r') | (b == b'>')
}

// Is one of some bytes whitespace.
fn any_space(s: &[u8]) -> bool
    ensures { result ≡ any_of is_space s.now }
{
    s.iter().any(|&b| definition::is_space(b))
}

// Is one of some bytes an LF.
fn any_lf(s: &[u8]) -> bool
    ensures { result ≡ any_of (is 10) s.now }
{
    s.contains(&b'\n')
}

// Have all bytes the bit 64. Letters have it; LF, CR and '>' do not.
fn all_high(s: &[u8]) -> bool
    ensures { result ≡ true → any_of barred s.now ≡ false }
{
    let mut low: u8 = 0;
    for &b in s {
        low = low | ((b & 64) ^ 64);
    }
    low == 0
}

// Is one of some bytes LF, CR or '>'. All are looked at, which the compiler does many at once.
fn any_listed(s: &[u8]) -> bool
    ensures { result ≡ any_of barred s.now }
{
    let mut any = false;
    for &b in s {
        any = any | is_barred(b);
    }
    any
}

// Is one of some bytes no base. Where all are letters, one bit of each tells that none is.
fn block_barred(s: &[u8]) -> bool
    ensures { result ≡ any_of barred s.now }
{
    if all_high(s) {
        return false;
    }
    any_listed(s)
}

// The same by blocks, so that a gap, which is no letter, costs a second look at its block alone.
fn any_barred(s: &[u8]) -> bool
    ensures { result ≡ any_of barred s.now }
{
    let blocks = s.chunks_exact(BLOCK);
    let rest = blocks.remainder();
    for block in blocks {
        if block_barred(block) {
            return true;
        }
    }
    block_barred(rest)
}

// Is a name empty, or has it whitespace.
fn name_unfit(name: &[u8]) -> bool
    ensures { result ≡ name_unfit name.now }
{
    name.is_empty() || any_space(name)
}

// Is there a description, and is it empty, has an LF, or begins or ends in whitespace.
fn description_unfit(description: Option<&[u8]>) -> bool
    ensures { result ≡ (is_some description.entry && description_unfit (lent description.entry)) }
{
    let Some(told) = description else {
        return false;
    };
    if told.len() == 0 {
        return true;
    }
    if any_lf(told) {
        return true;
    }
    if definition::is_space(told[0]) {
        return true;
    }
    definition::is_space(told[told.len() - 1])
}

// Is one of the three over the limit.
fn too_long(name: usize, description: usize, bases: usize) -> bool
    ensures { result ≡ too_long name description bases }
{
    if refusal::over_limit(name) {
        return true;
    }
    if refusal::over_limit(description) {
        return true;
    }
    refusal::over_limit(bases)
}

// How many bytes a definition line is written with.
fn definition_length(name: &[u8], description: Option<&[u8]>) -> usize
    requires name_len_bound { length name.now ≤ 1099511627776 }
    requires description_len_bound { length (lent description) ≤ 1099511627776 }
    ensures { result ≡ length (definition_text name.now (is_some description.entry) (lent description.entry)) }
{
    match description {
        None => name.len() + 2,
        Some(told) => name.len() + told.len() + 3,
    }
}

// How many bytes bases are written with: one division, whatever their number.
fn sequence_length(bases: &[u8], width: usize) -> usize
    requires bases_len_bound { length bases.now ≤ 1099511627776 }
    requires width_nonzero { 0 < width }
    ensures { result ≡ length (sequence_text width bases.now) }
{
    if bases.len() == 0 {
        return 0;
    }
    bases.len() + (bases.len() - 1) / width + 1
}

// Puts some bytes at a place of the output.
fn put_bytes(s: &[u8], out: &mut [u8], at: usize)
    requires { at + length s.now ≤ length out.old }
    ensures { out.new ≡ overlaid out.old at s.now }
{
    copying::copy_run(s, 0, s.len(), out, at);
}

// Puts the space and a description at a place of the output, or nothing; tells the place behind.
fn write_description(description: Option<&[u8]>, out: &mut [u8], at: usize) -> usize
    requires { at + length (described_text (is_some description) (lent description)) ≤ length out.old }
    ensures { Put out.old at (described_text (is_some description.entry) (lent description.entry)) result out.new }
{
    let Some(told) = description else {
        return at;
    };
    out[at] = b' ';
    put_bytes(told, out, at + 1);
    at + 1 + told.len()
}

// Puts a definition line at the front of the output; tells the place behind it.
fn write_definition(name: &[u8], description: Option<&[u8]>, out: &mut [u8]) -> usize
    requires { length (definition_text name.now (is_some description) (lent description)) ≤ length out.old }
    ensures { Put out.old 0 (definition_text name.now (is_some description.entry) (lent description.entry)) result out.new }
{
    out[0] = b'>';
    put_bytes(name, out, 1);
    let end = write_description(description, out, 1 + name.len());
    out[end] = b'\n';
    end + 1
}

// Puts bases at a place of the output, in lines of a width, each with LF.
fn write_lines(bases: &[u8], width: usize, out: &mut [u8], at: usize)
    requires width_nonzero { 0 < width }
    requires bases_in_bounds { at + length (sequence_text width bases.now) ≤ length out.old }
    ensures { out.new ≡ overlaid out.old at (sequence_text width bases.now) }
{
    let mut place = at;
    for line in bases.chunks(width) {
        put_bytes(line, out, place);
        place += line.len();
        out[place] = b'\n';
        place += 1;
    }
}

// Writes a record to the front of the output; the bytes behind it stay. `described` says whether there is a description.
// It stays beside the description, as the call from C has it: bytes over the limit are refused even where they are none (`too_long`).
pub fn write_record(
    name: &[u8],
    described: bool,
    description: &[u8],
    bases: &[u8],
    width: usize,
    out: &mut [u8],
) -> Result<usize, Refusal>
    ensures { leaves result out.new ≡ record_written name.now described description.now bases.now width out.old }
{
    if too_long(name.len(), description.len(), bases.len()) {
        return Err(Refusal::TooLong);
    }
    if width == 0 {
        return Err(Refusal::ZeroWidth);
    }
    if name_unfit(name) {
        return Err(Refusal::NameUnfit);
    }
    let told = described.then_some(description);
    if description_unfit(told) {
        return Err(Refusal::DescriptionUnfit);
    }
    if any_barred(bases) {
        return Err(Refusal::BaseUnfit);
    }
    let needed = definition_length(name, told) + sequence_length(bases, width);
    if out.len() < needed {
        return Err(Refusal::NoRoom {
            needed: needed as u64,
        });
    }
    let end = write_definition(name, told, out);
    write_lines(bases, width, out, end);
    Ok(needed)
}

// Writes bases alone to the front of the output, in lines of a width, each with LF; the bytes behind them stay. It refuses 1, 27, 30, 14.
pub fn write_sequence(bases: &[u8], width: usize, out: &mut [u8]) -> Result<usize, Refusal>
    ensures { leaves result out.new ≡ sequence_written bases.now width out.old }
{
    if refusal::over_limit(bases.len()) {
        return Err(Refusal::TooLong);
    }
    if width == 0 {
        return Err(Refusal::ZeroWidth);
    }
    if any_barred(bases) {
        return Err(Refusal::BaseUnfit);
    }
    let needed = sequence_length(bases, width);
    if out.len() < needed {
        return Err(Refusal::NoRoom {
            needed: needed as u64,
        });
    }
    write_lines(bases, width, out, 0);
    Ok(needed)
}
