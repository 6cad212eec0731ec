// Decimal numbers, read from bytes and written as bytes. A number is one or more digits 0 to 9, at most 18,446,744,073,709,551,615;
// one plus may stand before them. A plus and leading zeros are read, and none is written.
ghost use Rattle.std.specs.Prelude.{◌≡◌, cond, ◌+◌, ◌*◌, ◌/◌, ◌%◌, ◌^◌, ◌≤◌, ◌<◌, length, ltb};
ghost use Rattle.columns.specs.Bytes.{overlaid};
ghost use Rattle.columns.specs.Decimal.{digits_of, number_of, plain_number, digits, decimal_of, NumberPut};

// The bytes of the digits 0 and 9, as numbers.
pub(crate) const ZERO: u64 = 48;

pub(crate) const NINE: u64 = 57;

// Up to this number every digit may follow.
pub(crate) const ROOMY: u64 = 1844674407370955160;

// May a digit follow a number, so that both together are no more than the largest. Nothing is divided but at its end.
fn may_follow(value: u64, digit: u64) -> bool
    requires { digit ≤ 9 }
    ensures { result ≡ ltb (value * 10 + digit) (2 ^ 64) }
{
    if value <= ROOMY {
        return true;
    }
    value <= (u64::MAX - digit) / 10
}

// Reads one or more digits that are all of `s`.
fn read_digits(s: &[u8]) -> Option<u64>
    ensures { result ≡ digits_of s.now }
{
    if s.len() == 0 {
        return None;
    }
    let mut value: u64 = 0;
    for &byte in s {
        let b = u64::from(byte);
        if b < ZERO {
            return None;
        }
        if NINE < b {
            return None;
        }
        let d = b - ZERO;
        if !may_follow(value, d) {
            return None;
        }
        value = value * 10 + d;
    }
    Some(value)
}

// Reads a number that is all of `s`.
pub(crate) fn read_number(s: &[u8]) -> Option<u64>
    ensures { result ≡ number_of s.now }
{
    if s.len() == 0 {
        return None;
    }
    if s[0] == b'+' {
        return read_digits(&s[1..]);
    }
    read_digits(s)
}

// Has a number no needless leading zero and no plus.
pub(crate) fn plain_number(s: &[u8]) -> bool
    ensures { result ≡ plain_number s.now }
{
    if s.len() < 2 {
        return true;
    }
    if s[0] == b'+' {
        return false;
    }
    s[0] != b'0'
}

// How many digits a number is written with. Four go with each division by 10,000, and what is left is compared, without a branch: of
// 1,234,567 the division leaves 123, which is at least 10 and at least 100, and so there are 4 + 1 + 2 digits. The loop stays a `while`: it
// divides, and counts no index.
pub(crate) fn digit_count(n: u64) -> usize
    ensures { result ≡ length (decimal_of n) }
{
    let mut w: usize = 1;
    let mut m = n;
    while 10000 <= m {
        m = m / 10000;
        w += 4;
    }
    w + usize::from(10 <= m) + usize::from(100 <= m) + usize::from(1000 <= m)
}

// The tenth of a number below 100, without a division: of 99 it is 10,197 / 1,024, which is 9.
fn tenth(n: u64) -> u64
    requires { n < 100 }
    ensures { result ≡ n / 10 }
{
    103 * n / 1024
}

// The hundredth of a number below 10,000, in the same way.
fn hundredth(n: u64) -> u64
    requires { n < 10000 }
    ensures { result ≡ n / 100 }
{
    5243 * n / 524288
}

// Two digits as one word, the first in its low byte: 42 is 52 + 50 * 256, since '4' is 52 and '2' is 50. So they are stored at once.
fn two_digits(n: u64) -> u64
    requires { n < 100 }
    ensures { result ≡ 48 + n / 10 + 256 * (48 + n % 10) }
{
    256 * n - 2559 * tenth(n) + 12336
}

// The two halves of four digits side by side: 1,234 is 12 + 34 * 65,536.
// A type of numbers of four digits would be wrapped and unwrapped by each of the three functions that ask for `n < 10000`, for one bound.
fn halves(n: u64) -> u64
    requires { n < 10000 }
    ensures { result ≡ n / 100 + 65536 * (n % 100) }
{
    65536 * n - 6553599 * hundredth(n)
}

// The tenths of both halves by one multiplication: of 12 + 34 * 65,536 they are 1 + 3 * 65,536. What the product has between them goes.
fn tenths(two: u64) -> u64
    requires { (two % 65536 < 100) × (two / 65536 < 100) }
    ensures { result ≡ two % 65536 / 10 + 65536 * (two / 65536 / 10) }
{
    let both = 103 * two / 1024;
    both % 16 + both / 65536 * 65536
}

// Four digits as one word, the first in its low byte.
fn four_digits(n: u64) -> u64
    requires { n < 10000 }
    ensures { result ≡ 48 + n / 1000 + 256 * (48 + n / 100 % 10) + 65536 * (48 + n / 10 % 10) + 16777216 * (48 + n % 10) }
{
    let two = halves(n);
    256 * two - 2559 * tenths(two) + 808464432
}

// Writes two digits from place `at` on.
fn put_two(n: u64, out: &mut [u8], at: usize)
    requires { (n < 100) × (at + 2 ≤ length out.old) }
    ensures { out.new ≡ overlaid out.old at (digits 2 n) }
{
    let w = two_digits(n) as u16;
    out[at..at + 2].copy_from_slice(&w.to_le_bytes());
}

// Writes four digits from place `at` on. The compiler makes one store of them.
// The numbers of `put_two` are others: a size as a parameter would hide the constants of the multiplications.
fn put_four(n: u64, out: &mut [u8], at: usize)
    requires { (n < 10000) × (at + 4 ≤ length out.old) }
    ensures { out.new ≡ overlaid out.old at (digits 4 n) }
{
    let w = four_digits(n) as u32;
    out[at..at + 4].copy_from_slice(&w.to_le_bytes());
}

// Writes eight digits from place `at` on.
fn put_eight(n: u64, out: &mut [u8], at: usize)
    requires { (n < 100000000) × (at + 8 ≤ length out.old) }
    ensures { out.new ≡ overlaid out.old at (digits 8 n) }
{
    put_four(n / 10000, out, at);
    put_four(n % 10000, out, at + 4);
}

// Writes a number of at most four digits from place `at` on, and tells the place behind it. Its size tells how many digits it has.
fn put_few(n: u64, out: &mut [u8], at: usize) -> usize
    requires { (n < 10000) × (at + length (decimal_of n) ≤ length out.old) }
    ensures { NumberPut n out.old result at out.new }
{
    if n < 100 {
        if n < 10 {
            out[at] = (ZERO + n) as u8;
            return at + 1;
        }
        put_two(n, out, at);
        return at + 2;
    }
    if n < 1000 {
        let front = hundredth(n);
        out[at] = (ZERO + front) as u8;
        put_two(n - 100 * front, out, at + 1);
        return at + 3;
    }
    put_four(n, out, at);
    at + 4
}

// Writes a number from place `at` on, and tells the place behind it: its first digits, and then four or eight at once. 1,234,567 is 123 and
// 4567. It has no loop, so that it becomes a part of its caller's.
pub(crate) fn put_number(n: u64, out: &mut [u8], at: usize) -> usize
    requires { at + length (decimal_of n) ≤ length out.old }
    ensures { NumberPut n out.old result at out.new }
{
    if n < 10000 {
        return put_few(n, out, at);
    }
    if n < 100000000 {
        let middle = put_few(n / 10000, out, at);
        put_four(n % 10000, out, middle);
        return middle + 4;
    }
    let front = n / 100000000;
    if front < 10000 {
        let middle = put_few(front, out, at);
        put_eight(n % 100000000, out, middle);
        return middle + 8;
    }
    if front < 100000000 {
        let middle = put_few(front / 10000, out, at);
        put_four(front % 10000, out, middle);
        put_eight(n % 100000000, out, middle + 4);
        return middle + 12;
    }
    let middle = put_few(front / 100000000, out, at);
    put_eight(front % 100000000, out, middle);
    put_eight(n % 100000000, out, middle + 8);
    middle + 16
}
