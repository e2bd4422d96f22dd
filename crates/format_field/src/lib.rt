// A format as a field of a line: how `TD` and `TT` write it.
//
// Paper 02, §10: "one separator byte between fields, one to three fields", "field letters may be of either case". A format runs from a place to the end of its line.
// `format_form` answers it as one number and the place after it, or the place at fault, as §2 asks: the field or separator that is wrong, a field that comes again,
// or the LF where a longer line would be a format. Which formats there are is said in crate `formats`. The laws (proofs/) say that what is read is legal, that it
// reads the same behind other bytes, and that each fault points rightly.
#![tactic(auto)]

ghost use Rattle.std.specs.Prelude.{◌≡◌, ◌<◌, length};
ghost use Rattle.formats.specs.Formats.{unit};
ghost use Rattle.format_field.specs.Reading.{letter, unit_of, year_field, month_field, day_field, date_field, time_field, width, field_of, cut_at, field_at, further_at, with_third, with_second, format_at, format_field};

use fields::Field;
use formats::{Format, Stamp, is_separator, new_unit, pack, unit};
use ground::{byte, either};

// Whether b is a letter, given as a capital, in either case. Asked for here alone, of letters that stand in the code.
#[tactic(auto, unfolding(crate::specs::Reading::letter))]
fn is_letter(k: u8, b: u8) -> bool
    requires { k < 128 }
    ensures { result ≡ letter k b }
{
    either(b == k, b == k + 32)
}

#[tactic(auto, unfolding(crate::specs::Reading::unit_of))]
fn unit_of(a: u8) -> u8
    ensures { result ≡ unit_of a }
{
    if is_letter(b'Y', a) {
        return 1;
    }
    if is_letter(b'M', a) {
        return 2;
    }
    if is_letter(b'D', a) { 3 } else { 0 }
}

// `Y2` or `Y4`, by the second byte.
fn year_field(b: u8) -> u8
    ensures { result ≡ year_field b }
{
    match b {
        b'2' => 1,
        b'4' => 2,
        _ => 0,
    }
}

// `ME` or `MN`.
fn month_field(b: u8) -> u8
    ensures { result ≡ month_field b }
{
    if is_letter(b'E', b) {
        return 3;
    }
    if is_letter(b'N', b) { 4 } else { 0 }
}

// `DD`.
fn day_field(b: u8) -> u8
    ensures { result ≡ day_field b }
{
    if is_letter(b'D', b) { 5 } else { 0 }
}

#[tactic(auto, unfolding(crate::specs::Reading::date_field))]
fn date_field(a: u8, b: u8) -> u8
    ensures { result ≡ date_field a b }
{
    if is_letter(b'Y', a) {
        return year_field(b);
    }
    if is_letter(b'M', a) {
        return month_field(b);
    }
    if is_letter(b'D', a) { day_field(b) } else { 0 }
}

#[tactic(auto, unfolding(crate::specs::Reading::time_field))]
fn time_field(a: u8) -> u8
    ensures { result ≡ time_field a }
{
    if is_letter(b'H', a) {
        return 1;
    }
    if is_letter(b'M', a) {
        return 2;
    }
    if is_letter(b'S', a) { 3 } else { 0 }
}

fn width(stamp: Stamp) -> usize
    ensures { result ≡ width stamp }
{
    match stamp {
        Stamp::Date => 2,
        Stamp::Time => 1,
    }
}

fn field_of(stamp: Stamp, a: u8, b: u8) -> u8
    ensures { result ≡ field_of stamp a b }
{
    match stamp {
        Stamp::Date => date_field(a, b),
        Stamp::Time => time_field(a),
    }
}

#[tactic(auto, unfolding(crate::specs::Reading::cut_at))]
fn cut_at(line: &[u8], u: u8, v: u8, at: usize) -> usize
    ensures { result ≡ cut_at line.now u v at }
{
    if new_unit(u, v, unit_of(byte(line, at))) {
        return line.len();
    }
    at
}

// A field of another unit than u and v, and the place after its letters; or the place at fault.
#[tactic(auto, unfolding(crate::specs::Reading::field_at))]
fn field_at(line: &[u8], stamp: Stamp, u: u8, v: u8, at: usize) -> Result<(u8, usize), usize>
    ensures { result ≡ field_at stamp line.now u v at }
{
    if line.len() <= at {
        return Err(cut_at(line, u, v, at));
    }
    let w = width(stamp);
    if line.len() - at < w {
        return Err(cut_at(line, u, v, at));
    }
    let x = field_of(stamp, byte(line, at), byte(line, at + 1));
    if new_unit(u, v, unit(stamp, x)) {
        return Ok((x, at + w));
    }
    Err(at)
}

// The same after a separator. Asked for by `with_third` and `with_second` alone, before the line's end.
#[tactic(auto, unfolding(crate::specs::Reading::further_at))]
fn further_at(line: &[u8], stamp: Stamp, u: u8, v: u8, at: usize) -> Result<(u8, usize), usize>
    requires { at < length line.now }
    ensures { result ≡ further_at stamp line.now u v at }
{
    if is_separator(byte(line, at)) {
        return field_at(line, stamp, u, v, at + 1);
    }
    Err(at)
}

// The rest of a format, after the fields a and b and their separator at d. Asked for by `with_second` alone, where more bytes stand.
fn with_third(line: &[u8], stamp: Stamp, a: u8, d: usize, b: u8, e: usize) -> Result<Format, usize>
    requires { e < length line.now }
    ensures { result ≡ with_third line.now a d b e (further_at stamp line.now (unit stamp a) (unit stamp b) e) }
{
    let (c, next) = further_at(line, stamp, unit(stamp, a), unit(stamp, b), e)?;
    if next < line.len() {
        return Err(next);
    }
    Ok(Format {
        first: a,
        mark1: byte(line, d),
        second: b,
        mark2: byte(line, e),
        third: c,
    })
}

// The rest after the field a. Asked for by `format_at` alone, where more bytes stand.
fn with_second(line: &[u8], stamp: Stamp, a: u8, d: usize) -> Result<Format, usize>
    requires { d < length line.now }
    ensures { result ≡ with_second stamp line.now a d (further_at stamp line.now (unit stamp a) 0 d) }
{
    let (b, e) = further_at(line, stamp, unit(stamp, a), 0, d)?;
    if e < line.len() {
        return with_third(line, stamp, a, d, b, e);
    }
    Ok(Format {
        first: a,
        mark1: byte(line, d),
        second: b,
        mark2: 0,
        third: 0,
    })
}

// The format from a place to the end of the line, or the place at fault.
#[tactic(auto, unfolding(crate::specs::Reading::format_at))]
fn format_at(line: &[u8], stamp: Stamp, at: usize) -> Result<Format, usize>
    ensures { result ≡ format_at stamp line.now at }
{
    let (a, d) = field_at(line, stamp, 0, 0, at)?;
    if d < line.len() {
        return with_second(line, stamp, a, d);
    }
    Ok(Format {
        first: a,
        mark1: 0,
        second: 0,
        mark2: 0,
        third: 0,
    })
}

// The same as a field: a format's value is the format as one number.
#[tactic(auto, unfolding(crate::specs::Reading::format_field))]
pub fn format_form(line: &[u8], stamp: Stamp, at: usize) -> Field
    ensures { result ≡ format_field stamp line.now at }
{
    let f = format_at(line, stamp, at)?;
    Ok((pack(f), line.len()))
}
