// Parts of a file, for a host that has several cores: the records that begin between two numbers, indexed or checked by a call of their
// own. Any numbers will do. Each is taken to the first record that begins at it or behind it, so that parts whose numbers go on from one
// to the next have every record once. Example: in `>a\nAC\n>b\nG\n` records begin at 0 and 6; the part from 0 to 4 has the first, the part from
// 4 to 99 the second. Offsets are those of the whole file, and nothing has to be shifted. Refuses what the whole call refuses, in the
// part's records; 1 is judged by the whole file.
#![tactic(auto)]

ghost use Rattle.std.specs.Prelude.{◌≡◌};
ghost use Rattle.table.specs.Numbers.{numbers_in};
ghost use Rattle.table.specs.Rows.{row_count};
ghost use Rattle.table.specs.Bytes.{FilledBytes};
ghost use Rattle.parts.specs.Parts.{line_start, record_start, part_in, part_checked};

use fitting::Rule;
use refusal::Refusal;
use table::Filled;

// Where the first line begins at or behind `n`: the start, or behind an LF; the end where there is none.
pub fn line_start(s: &[u8], n: usize) -> usize
    ensures { result ≡ line_start s.now n }
{
    if n == 0 {
        return 0;
    }
    if s.len() < n {
        return s.len();
    }
    lines::ends::line_end(s, n - 1)
}

// Where the first record begins at or behind `n`: the start, or a line that begins with '>'; the end where there is none.
// Its `while` counts no index: each line tells where the next begins.
pub fn record_start(s: &[u8], n: usize) -> usize
    ensures { result ≡ record_start s.now n }
{
    if n == 0 {
        return 0;
    }
    let mut i = line_start(s, n);
    while i < s.len() {
        if s[i] == b'>' {
            return i;
        }
        i = lines::ends::line_end(s, i);
    }
    i
}

// Indexes the records that begin at `from` or behind it, and before `to`, by a rule into a lent table, from its first row on.
pub fn index_part(s: &[u8], from: usize, to: usize, table: &mut [u8], rule: Rule) -> Filled
    ensures { FilledBytes (part_in rule s.now from to (row_count (numbers_in table.old))) table.old table.new result }
{
    if refusal::over_limit(s.len()) {
        return Filled {
            rows: 0,
            stop: Err(Refusal::TooLong),
        };
    }
    let start = record_start(s, from);
    let end = record_start(s, to);
    fitting::bytes::index_from(&s[..end], start, table, rule)
}

// Checks the records that begin at `from` or behind it, and before `to`, against the index lines that begin at `first` or behind it, and
// before `last`, as if no record came before.
pub fn check_part(
    fasta: &[u8],
    from: usize,
    to: usize,
    index: &[u8],
    first: usize,
    last: usize,
) -> Result<(), Refusal>
    ensures { result ≡ part_checked fasta.now from to index.now first last }
{
    if refusal::over_limit(fasta.len()) || refusal::over_limit(index.len()) {
        return Err(Refusal::TooLong);
    }
    let start = record_start(fasta, from);
    let end = record_start(fasta, to);
    let line = line_start(index, first);
    let behind = line_start(index, last);
    checker::check_from(&fasta[..end], start, &index[..behind], line)
}
