// A table of rows of any kind, of numbers of its own or of bytes: what the kinds of rows and of tables differ in are two traits, and what
// is done with a table stands here once.
ghost use Rattle.std.specs.Prelude.{◌≡◌, ◌+◌, ◌*◌, ◌^◌, ◌≤◌, ◌<◌, ℕ, List, Result, Option, Ok, Some, length, get_or, set};
ghost use Rattle.std.proofs.lemmas.List.Edits.{sets};
ghost use Rattle.table.specs.Kinds.{Kind, FoundOf, held_in, limited, used_in, turn_of, StoredAt, FilledAs, NextOf, KeptAs};

use crate::Filled;
use refusal::Refusal;

// What a table is made of: numbers, or bytes, of which eight are a number. A rest of bytes that is none stays as it is.
pub trait Cell: Copy {
    ghost numbers: { List Self → List ℕ };

    ghost rest: { List Self → List ℕ };

    // How many numbers a table has.
    fn count(table: &[Self]) -> usize
        ensures { result ≡ length (numbers table.now) };

    // Number `k` of a table that has it.
    fn number(table: &[Self], k: usize) -> u64
        requires { k < length (numbers table.now) }
        ensures { result ≡ get_or (numbers table.now) k 0 };

    // Puts a number in the place of number `k` of a table that has it.
    fn put(table: &mut [Self], k: usize, number: u64)
        requires { k < length (numbers table.old) }
        ensures numbers { numbers table.new ≡ set (numbers table.old) k number }
        ensures rest { rest table.new ≡ rest table.old };

    // A table has no more numbers than it is made of.
    ghost few: { (t : List Self) → length (numbers t) ≤ length t };
}

// A kind of row: so many numbers, and what they say.
pub trait RowKind {
    type Row: Copy;

    ghost kind: { Kind Self.Row };

    ghost numbers_at: { List ℕ → ℕ → Self.Row };

    ghost WORDS: { ℕ };

    // The numbers of a row.
    const WORDS: usize;

    // The row whose numbers begin with number `b` of a table that has them.
    fn read<C: Cell>(table: &[C], b: usize) -> Self::Row
        requires inside { b + WORDS ≤ length (C.numbers table.now) }
        requires fits { b + WORDS < 2 ^ 64 }
        ensures { result ≡ numbers_at (C.numbers table.now) b };

    // Puts a row's numbers in a table that has room for them, from number `b` on.
    fn write<C: Cell>(table: &mut [C], b: usize, x: Self::Row)
        requires inside { b + WORDS ≤ length (C.numbers table.old) }
        requires fits { b + WORDS < 2 ^ 64 }
        ensures numbers { C.numbers table.new ≡ sets (C.numbers table.old) b (kind.words_of x) }
        ensures rest { C.rest table.new ≡ C.rest table.old };

    // The kind has so many numbers to a row.
    ghost sized: { WORDS ≡ kind.size };
}

// What the rows of a table come from, as a file or an index is read: which rows there are from a place of its text on, where row `row` is next.
pub trait Source<K: RowKind>: Copy {
    ghost rows: { Self → List ℕ → ℕ → ℕ → FoundOf K.Row };

    // What is known of the place behind so many rows from a place on.
    ghost reached: { Self → List ℕ → ℕ → ℕ → ℕ → Type 0 };

    // The next row, and the place behind it.
    fn next(self, text: &[u8], at: usize, row: usize) -> Result<Option<(K::Row, usize)>, Refusal>
        requires { row * K.kind.size < 2 ^ 64 }
        ensures next { NextOf K.kind (rows self text.now row at) (rows self text.now (row + 1)) at (length text.now) (turn_of result) }
        ensures reached { (from b : ℕ) (x : K.Row) → result ≡ Ok (Some (x, b)) → reached self text.now from row at → reached self text.now from (row + 1) b };

    // The place behind no row is the first.
    ghost start: { (s : Self) (text : List ℕ) (from : ℕ) → reached s text from 0 from };
}

// How many whole rows a table has. The numbers of a table can be counted.
pub fn rows<K: RowKind, C: Cell>(table: &[C]) -> usize
    ensures count { result ≡ K.kind.row_count (C.numbers table.now) }
    ensures fits { length (C.numbers table.now) < 2 ^ 64 }
{
    C::count(table) / K::WORDS
}

// Row `row` of a table that has `in_use` rows in use.
pub fn row<K: RowKind, C: Cell>(
    table: &[C],
    in_use: usize,
    row: usize,
) -> Result<(usize, K::Row), Refusal>
    ensures { result ≡ used_in K.kind K.numbers_at (C.numbers table.now) in_use row }
{
    let all = rows::<K, C>(table);
    if all < in_use {
        return Err(crate::bad(all));
    }
    if in_use <= row {
        return Err(crate::bad(row));
    }
    Ok((row, K::read(table, row * K::WORDS)))
}

// Puts a row in row `row` of a table, and leaves all else there as it was.
pub fn store<K: RowKind, C: Cell>(table: &mut [C], row: usize, x: K::Row) -> Result<(), Refusal>
    ensures stored { StoredAt K.kind (C.numbers table.old) row x result (C.numbers table.new) }
    ensures rest { C.rest table.new ≡ C.rest table.old }
{
    let all = rows::<K, C>(table);
    if all <= row {
        return Err(Refusal::TableFull { rows: all as u64 });
    }
    K::write(table, row * K::WORDS, x);
    Ok(())
}

// One turn of filling: puts the next row, if there is one, in row `row`.
pub fn keep<K: RowKind, C: Cell>(
    table: &mut [C],
    row: usize,
    next: Result<Option<(K::Row, usize)>, Refusal>,
) -> Result<Option<usize>, Refusal>
    ensures kept { KeptAs K.kind (C.numbers table.old) row (turn_of next) result (C.numbers table.new) }
    ensures rest { C.rest table.new ≡ C.rest table.old }
{
    let Some(found) = next? else {
        return Ok(None);
    };
    store::<K, C>(table, row, found.0)?;
    Ok(Some(found.1))
}

// A row for each that a text gives from `from` on, from the table's first row on; and the place behind the last of them. No size limit is judged.
pub fn fill_rows<K: RowKind, C: Cell, S: Source<K>>(
    source: S,
    text: &[u8],
    from: usize,
    table: &mut [C],
) -> (Filled, usize)
    ensures filled { FilledAs K.kind (held_in (K.kind.row_count (C.numbers table.old)) (K.kind.row_count (C.numbers table.old)) (S.rows source text.now 0 from)) (C.numbers table.old) (C.numbers table.new) result.0 }
    ensures reached { S.reached source text.now from result.0.rows result.1 }
    ensures rest { C.rest table.new ≡ C.rest table.old }
{
    let mut at = from;
    let mut n = 0;
    // rows are counted beside the place, which no range gives, and both are told behind the loop, with why it ends
    let stop = loop {
        match keep::<K, C>(table, n, source.next(text, at, n)) {
            Ok(Some(behind)) => {
                n += 1;
                at = behind;
            }
            Ok(None) => break Ok(()),
            Err(f) => break Err(f),
        }
    };
    (Filled { rows: n, stop }, at)
}

// The same of a text that may be over the size limit, which gives no row then.
pub fn fill<K: RowKind, C: Cell, S: Source<K>>(
    source: S,
    text: &[u8],
    from: usize,
    table: &mut [C],
) -> (Filled, usize)
    ensures filled { FilledAs K.kind (limited (length text.now) (held_in (K.kind.row_count (C.numbers table.old)) (K.kind.row_count (C.numbers table.old)) (S.rows source text.now 0 from))) (C.numbers table.old) (C.numbers table.new) result.0 }
    ensures reached { S.reached source text.now from result.0.rows result.1 }
    ensures rest { C.rest table.new ≡ C.rest table.old }
{
    if refusal::over_limit(text.len()) {
        let filled = Filled {
            rows: 0,
            stop: Err(Refusal::TooLong),
        };
        return (filled, from);
    }
    fill_rows::<K, C, S>(source, text, from, table)
}
