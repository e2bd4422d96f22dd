// EAN-13, ISO/IEC 15420: twelve digits and their check digit between guards.
ghost use Rattle.std.specs.Prelude.{◌≡◌, ◌+◌, ◌-◌, ◌≤◌, ◌<◌, length, get_or, drop};
ghost use Rattle.std.proofs.lemmas.List.Edits.{sets};
ghost use Rattle.symbols.specs.Tables.{rows_set};
ghost use Rattle.symbols.specs.Elements.{digit_of, check_digit, checked, pattern_row, patterns, elements_ean};
ghost use Rattle.symbols.specs.Laid.{most_elements, Put};

use crate::row::{put, row_in, wide};
use code128::above;

// The digits in sets A and C, and in set B.
const WA: [u32; 10] = [3211, 2221, 2122, 1411, 1132, 1231, 1114, 1312, 1213, 3112];

const WB: [u32; 10] = [1123, 1222, 2212, 1141, 2311, 1321, 4111, 2131, 3121, 2113];

// The sets of the six left digits by the first digit: 1 is A, 2 is B.
const SETS: [u32; 10] = [
    111111, 112122, 112212, 112221, 121122, 122112, 122211, 121212, 121221, 122121,
];

fn row(set: u8, b: u8) -> u32
    ensures { result ≡ pattern_row set b }
{
    let v = above(b, b'0');
    if set == 2 {
        row_in(&WB, v)
    } else {
        row_in(&WA, v)
    }
}

fn row_of_sets(b: u8) -> u32
    ensures { result ≡ get_or rows_set (digit_of b) 0 }
{
    row_in(&SETS, above(b, b'0'))
}

// The check digit of any number of digits: what is summed stays below ten and one digit's weight.
pub fn check_digit(s: &[u8]) -> u8
    ensures { result ≡ check_digit s.now }
{
    let mut sum: usize = 0;
    for (i, b) in s.iter().enumerate() {
        sum = sum % 10 + (3 - 2 * ((s.len() - i - 1) % 2)) * above(*b, b'0');
    }
    ((10 - sum % 10) % 10) as u8
}

// Digit q of the twelve and their check digit c, as a byte.
fn digit(s: &[u8], c: u8, q: usize) -> u8
    requires { (c ≡ check_digit s.now) × (q ≤ length s.now) }
    ensures { result ≡ get_or (checked s.now) q 0 }
{
    if q < s.len() {
        return s[q];
    }
    b'0' + c
}

// As many digits as there are sets, from digit q on.
fn half(s: &[u8], c: u8, which: &[u8], q: usize, out: &mut [u8], at: usize)
    requires { (c ≡ check_digit s.now) × (q + length which.now ≤ length s.now + 1) × (length which.now ≤ 6) × (at ≤ 100) }
    ensures { out.new ≡ sets out.old at (patterns which.now (drop q (checked s.now))) }
{
    for (i, set) in which.iter().enumerate() {
        put(out, 4 * i + at, wide(row(*set, digit(s, c, q + i))), 4);
    }
}

// Asked for by `fill` of the crate alone, whose data is fit: twelve digits.
pub(crate) fn fill(s: &[u8], out: &mut [u8]) -> usize
    requires { length s.now ≡ 12 }
    ensures { (Put (elements_ean s.now) 0 out.old out.new result) × (result ≤ most_elements) }
{
    let c = check_digit(s);
    let mut which = [0u8; 6];
    put(&mut which, 0, wide(row_of_sets(s[0])), 6);
    put(out, 0, 111, 3);
    half(s, c, &which, 1, out, 3);
    put(out, 27, 11111, 5);
    half(s, c, b"\x03\x03\x03\x03\x03\x03", 7, out, 32);
    put(out, 56, 111, 3)
}
