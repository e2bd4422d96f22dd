// Numbers in a command line.
//
// Paper 01: "Numbers are 1 to 9 digits, leading zeros allowed", and the step of a counter stands "with or without sign". `number` and `signed` read one at a
// place of a line and answer its value and the place after it, or that there is none. Any line and any place is answered.
#![tactic(auto)]

ghost use Rattle.std.specs.Prelude.{◌≡◌, ◌+◌, ◌-◌, ◌≤◌, length};
ghost use Rattle.classes.specs.Bytes.{part};
ghost use Rattle.numbers.specs.Number.{digit_of, value_from, number_at, signed_at, behind_sign, plus, minus, Small};

use classes::{Class, run_end};
use fields::{Field, point};
use ground::{byte, wide};

// The number that a digit writes; 0 of another byte.
pub fn digit(b: u8) -> usize
    ensures { result ≡ digit_of b }
{
    match b {
        b'0'..=b'9' => wide(b - b'0'),
        _ => 0,
    }
}

// The number that the digits from a place to another write.
fn value(line: &[u8], at: usize, end: usize) -> usize
    requires { (at ≤ end) × (end ≤ at + 9) × (end ≤ length line.now) }
    ensures { result ≡ value_from 0 (part line.now at (end - at)) }
{
    let mut v: usize = 0;
    for b in &line[at..end] {
        v = v * 10 + digit(*b);
    }
    v
}

// A number of 1 to 9 digits.
#[tactic(auto, unfolding(crate::specs::Number::number_at))]
pub fn number(line: &[u8], at: usize) -> Field
    ensures { result ≡ number_at line.now at }
{
    let end = run_end(line, Class::Digit, at);
    if end <= at {
        return Err(at);
    }
    if 9 < end - at {
        return Err(at);
    }
    Ok((value(line, at, end), end))
}

// Nought as the value of a number with or without sign, which is counted from -1,000,000,000, so that minus zero is plus zero.
pub const NOUGHT: usize = 1000000000;

// A number with or without sign.
#[tactic(auto, unfolding(crate::specs::Number::signed_at))]
pub fn signed(line: &[u8], at: usize) -> Field
    ensures { result ≡ signed_at line.now at }
{
    let sign = byte(line, at);
    match sign {
        b'+' => above(behind_sign(line, at, number(line, at + 1))),
        b'-' => below(behind_sign(line, at, number(line, at + 1))),
        _ => above(number(line, at)),
    }
}

// What is found behind the sign at a place; where no number is, the sign is pointed to.
fn behind_sign(line: &[u8], at: usize, found: Field) -> Field
    ensures { result ≡ behind_sign line.now at found }
{
    found.map_err(|fault| point(line, at, fault))
}

fn above(found: Field) -> Field
    requires { Small found }
    ensures { result ≡ plus found }
{
    let (v, end) = found?;
    Ok((NOUGHT + v, end))
}

fn below(found: Field) -> Field
    requires { Small found }
    ensures { result ≡ minus found }
{
    let (v, end) = found?;
    Ok((NOUGHT - v, end))
}
