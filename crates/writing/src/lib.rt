// Bytes and numbers written into lent memory.
//
// Paper 01 has numbers written "with leading zeros dropped", "names in capitals", "signs written and minus zero as `+0`". Each function here writes such a thing from a
// place on, as far as there is room, and answers the place after it, so that one thing is written behind another without asking for room. `same` compares two lists.
// Any place and any length is answered.
#![tactic(auto)]

ghost use Rattle.std.specs.Prelude.{◌≡◌, [], ◌∷◌, cond, ◌+◌, ◌<◌, eqb};
ghost use Rattle.parts.specs.Names.{capital};
ghost use Rattle.writing.specs.Writing.{Wrote, digit_byte, decimal, signed, cased, equal};

use ground::least;
use numbers::NOUGHT;
use parts::{folded, rest};

// Stores a byte, if there is room, and answers the place after it.
pub fn put(out: &mut [u8], at: usize, b: u8) -> usize
    ensures { Wrote out.old at (b ∷ []) result out.new }
{
    if at < out.len() {
        out[at] = b;
        return at + 1;
    }
    out.len()
}

fn case(fold: bool, b: u8) -> u8
    ensures { result ≡ cond fold (capital b) b }
{
    if fold { folded(b) } else { b }
}

// Copies bytes, in capitals or as they are, as far as there is room.
pub fn copy(from: &[u8], fold: bool, out: &mut [u8], at: usize) -> usize
    ensures { Wrote out.old at (cased fold from.now) result out.new }
{
    if out.len() < at {
        return out.len();
    }
    let n = least(from.len(), out.len() - at);
    for j in 0..n {
        out[at + j] = case(fold, from[j]);
    }
    at + n
}

fn digit_byte(x: usize) -> u8
    requires { x < 10 }
    ensures { result ≡ digit_byte x }
{
    b'0' + (x as u8)
}

// Writes a number of any size, as `put_decimal` does.
fn put_digits(n: usize, out: &mut [u8], at: usize) -> usize
    ensures { Wrote out.old at (decimal n) result out.new }
{
    let mut d = [b'0'; 20];
    let mut k = 19;
    let mut m = n;
    // A while: how many digits there are is known only when the last is taken off.
    while 10 <= m {
        d[k] = digit_byte(m % 10);
        k -= 1;
        m = m / 10;
    }
    d[k] = digit_byte(m);
    copy(rest(&d, k), false, out, at)
}

// Writes a number without leading zeros. Most numbers of a line have one digit or two.
pub fn put_decimal(n: usize, out: &mut [u8], at: usize) -> usize
    ensures { Wrote out.old at (decimal n) result out.new }
{
    if n < 10 {
        return put(out, at, digit_byte(n));
    }
    if n < 100 {
        let next = put(out, at, digit_byte(n / 10));
        return put(out, next, digit_byte(n % 10));
    }
    put_digits(n, out, at)
}

// Writes a number with its sign.
pub fn put_signed(v: usize, out: &mut [u8], at: usize) -> usize
    ensures { Wrote out.old at (signed v) result out.new }
{
    if v < NOUGHT {
        let next = put(out, at, b'-');
        return put_decimal(NOUGHT - v, out, next);
    }
    let next = put(out, at, b'+');
    put_decimal(v - NOUGHT, out, next)
}

fn differs(x: u8, y: u8) -> u8
    ensures { result ≡ cond (eqb x y) 0 1 }
{
    u8::from(x != y)
}

// Whether two slices hold the same bytes. No early exit, so that many bytes go at once.
pub fn same(a: &[u8], b: &[u8]) -> bool
    ensures { result ≡ equal a.now b.now }
{
    if a.len() != b.len() {
        return false;
    }
    let mut any: u8 = 0;
    for (i, x) in a.iter().enumerate() {
        any |= differs(*x, b[i]);
    }
    any == 0
}
