// What lies outside the label. Paper 01, "Sound": "no background dot outside width by length". `white_outside` answers true exactly when no dot of a
// whole row of the page is black there (`white_outside` of specs/Outside.antt), for a page of any length and any numbers; the laws say that white
// pages are so, and that whatever is cut at width and length keeps them so. Only the bytes are looked at that may lie outside.
#![tactic(auto)]

ghost use Rattle.std.specs.Prelude.{◌≡◌, cond, ◌+◌, ◌*◌, ◌/◌, ◌%◌, ◌^◌, ◌≤◌, ◌<◌, min, ltb, take, drop, length as length_of};
ghost use Rattle.dots.specs.Dots.{bytes_a_row, byte_of};
ghost use Rattle.outside.specs.Outside.{outside, white_byte, white_from, white_outside};

use dots::{BYTES_A_ROW, span_mask};

// The byte whose dots are those that lie outside width by length, of the dots of byte i of a page.
fn outside_mask(i: usize, width: usize, length: usize) -> u8
    ensures { result ≡ byte_of (λ k. outside width length (i % bytes_a_row * 8 + k) (i / bytes_a_row)) }
{
    let x = i % BYTES_A_ROW * 8;
    if length <= i / BYTES_A_ROW || width <= x {
        return 255;
    }
    span_mask((width - x).min(8), 8)
}

// Whether byte i of a page, which is b, has no black dot outside width by length. Most bytes that are looked at have no black dot, and no place is
// worked out for them.
fn white_byte(i: usize, b: u8, width: usize, length: usize) -> bool
    ensures { result ≡ white_byte width length i b }
{
    b == 0 || b & outside_mask(i, width, length) == 0
}

// Whether bytes that stand at byte `at` of a page have no black dot outside width by length.
fn white_bytes(bytes: &[u8], at: usize, width: usize, length: usize) -> bool
    requires { at + length_of bytes.now < 2 ^ 64 }
    ensures { result ≡ white_from width length at bytes.now }
{
    for (i, b) in bytes.iter().enumerate() {
        if !white_byte(at + i, *b, width, length) {
            return false;
        }
    }
    true
}

// The first byte of row y that may have dots outside width by length: no other has to be looked at.
fn first_outside(y: usize, width: usize, length: usize) -> usize
    ensures { (result ≡ cond (ltb y length) (min (width / 8) bytes_a_row) 0) × (result ≤ bytes_a_row) }
{
    if y < length {
        (width / 8).min(BYTES_A_ROW)
    } else {
        0
    }
}

// Whether row y has no black dot outside width by length.
fn white_row(page: &[u8], y: usize, width: usize, length: usize) -> bool
    requires { y * bytes_a_row + bytes_a_row ≤ length_of page.now }
    ensures { result ≡ white_from width length (y * bytes_a_row) (take bytes_a_row (drop (y * bytes_a_row) page.now)) }
{
    let at = y * BYTES_A_ROW + first_outside(y, width, length);
    let end = y * BYTES_A_ROW + BYTES_A_ROW;
    white_bytes(&page[at..end], at, width, length)
}

// Whether no dot of a whole row is black outside width by length. Bytes after the last whole row are not looked at.
pub fn white_outside(page: &[u8], width: usize, length: usize) -> bool
    ensures { result ≡ white_outside width length page.now }
{
    let rows = page.len() / BYTES_A_ROW;
    for y in 0..rows {
        if !white_row(page, y, width, length) {
            return false;
        }
    }
    true
}
