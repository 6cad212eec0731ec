// The numbers of a table that is lent as bytes: eight bytes to a number, low byte first.
ghost use Rattle.std.specs.Prelude.{◌≡◌, ◌+◌, ◌*◌, ◌≤◌, length, take, drop, get_or, set, []};
ghost use Rattle.table.specs.Numbers.{from_bytes, to_bytes, numbers_in, rest_of};
ghost use Rattle.table.specs.NumberLaws.{Became, length-own, length-few};

use crate::kind::Cell;

// The number of at most eight bytes.
fn from_bytes(bytes: &[u8]) -> u64
    requires { length bytes.now ≤ 8 }
    ensures { result ≡ from_bytes bytes.now }
{
    let mut n = 0;
    for i in (0..bytes.len()).rev() {
        n = n * 256 + u64::from(bytes[i]);
    }
    n
}

// Writes the low bytes of a number, as many as there is room for.
fn to_bytes(number: u64, bytes: &mut [u8])
    ensures { bytes.new ≡ to_bytes (length bytes.old) number }
{
    let mut left = number;
    for i in 0..bytes.len() {
        bytes[i] = (left % 256) as u8;
        left /= 256;
    }
}

// How many numbers a table has.
pub fn count(table: &[u8]) -> usize
    ensures { result ≡ length (numbers_in table.now) }
{
    table.len() / 8
}

impl Cell for u64 {
    ghost numbers = { λ t. t };

    ghost rest = { λ t. [] };

    fn count(table: &[u64]) -> usize {
        table.len()
    }

    fn number(table: &[u64], k: usize) -> u64 {
        table[k]
    }

    fn put(table: &mut [u64], k: usize, number: u64) {
        table[k] = number;
    }

    ghost few = { λ t. length-own t };
}

impl Cell for u8 {
    ghost numbers = { numbers_in };

    ghost rest = { rest_of };

    fn count(table: &[u8]) -> usize {
        count(table)
    }

    fn number(table: &[u8], k: usize) -> u64 {
        let at = k * 8;
        from_bytes(&table[at..at + 8])
    }

    fn put(table: &mut [u8], k: usize, number: u64) {
        let at = k * 8;
        to_bytes(number, &mut table[at..at + 8]);
    }

    ghost few = { length-few };
}

// Number `k` of a table; 0 where it has none.
pub fn number(table: &[u8], k: usize) -> u64
    ensures { result ≡ get_or (numbers_in table.now) k 0 }
{
    if count(table) <= k {
        return 0;
    }
    <u8 as Cell>::number(table, k)
}

// Puts a number in the place of number `k` of a table, if it has one.
pub fn put(table: &mut [u8], k: usize, number: u64)
    ensures { Became table.old (set (numbers_in table.old) k number) table.new }
{
    if count(table) <= k {
        return;
    }
    <u8 as Cell>::put(table, k, number);
}
