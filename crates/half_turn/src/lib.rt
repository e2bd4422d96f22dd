// The half turn. Paper 01: "with ZB the finished page is turned by 180 degrees: dot (x,y) goes to (width-1-x, length-1-y)". `turn` promises that page
// (`turned` of specs/Turn.antt), white outside width by length, for a page of any length and any numbers.
// The rows of the label are turned as they are, 608 dots wide: bytes in the other order, and the dots of each byte too. What then stands too far to
// the right by 608 less the width is shifted to the left, and what lies below the length is whitened.
#![tactic(auto)]

ghost use Rattle.std.specs.Prelude.{◌≡◌, cond, ◌&&◌, ◌+◌, ◌-◌, ◌*◌, ◌/◌, ◌%◌, ◌≤◌, ◌<◌, ltb, length, get_or, set};
ghost use Rattle.dots.specs.Dots.{bytes_a_row, dots_a_row, bit_of, byte_of, dot_at, redrawn};
ghost use Rattle.half_turn.specs.Turn.{turned};

use boxes::{Area, Size, ink_box};
use dots::{BYTES_A_ROW, DOTS_A_ROW, Ink};

// A byte with its dots in the other order. Not `reverse_bits`: the library's goes over the dots one at a time, and every byte of the label is mirrored.
fn mirror(b: u8) -> u8
    ensures { result ≡ byte_of (λ k. bit_of b (7 - k)) }
{
    let halves = b / 16 + b % 16 * 16;
    let pairs = ((halves >> 2) & 0x33) + (halves & 0x33) * 4;
    ((pairs >> 1) & 0x55) + (pairs & 0x55) * 2
}

// Turns the first n rows by half a turn.
fn turn_rows(page: &mut [u8], n: usize)
    requires { n * bytes_a_row ≤ length page.old }
    ensures { page.new ≡ redrawn (λ x y o. cond (ltb y n) (dot_at page.old (dots_a_row - 1 - x) (n - 1 - y)) o) page.old }
{
    let end = n * BYTES_A_ROW;
    for i in 0..end / 2 {
        let j = end - 1 - i;
        let a = mirror(page[i]);
        let b = mirror(page[j]);
        page[i] = b;
        page[j] = a;
    }
}

// The byte of the eight dots from dot t on of two bytes side by side.
fn between(a: u8, b: u8, t: usize) -> u8
    requires { t < 8 }
    ensures { result ≡ byte_of (λ k. cond (ltb (k + t) 8) (bit_of a (k + t)) (bit_of b (k + t - 8))) }
{
    let left = ((a as u32) << t) % 256;
    let right = (b as u32) >> (8 - t);
    (left | right) as u8
}

// Byte i of a row that starts at byte `at`, white beyond the row's end.
fn byte_of_row(page: &[u8], at: usize, i: usize) -> u8
    requires { at + bytes_a_row ≤ length page.now }
    ensures { result ≡ cond (ltb i bytes_a_row) (get_or page.now (at + i) 0) 0 }
{
    if i < BYTES_A_ROW { page[at + i] } else { 0 }
}

// Shifts byte i of a page: its dots become those that stand s to the right in its row.
fn shift_byte(page: &mut [u8], i: usize, s: usize)
    requires { (i < length page.old / bytes_a_row * bytes_a_row) × (s ≤ dots_a_row) }
    ensures { page.new ≡ set page.old i (byte_of (λ k. ltb (i % bytes_a_row * 8 + k + s) dots_a_row && dot_at page.old (i % bytes_a_row * 8 + k + s) (i / bytes_a_row))) }
{
    let at = i / BYTES_A_ROW * BYTES_A_ROW;
    let from = i % BYTES_A_ROW + s / 8;
    let a = byte_of_row(page, at, from);
    let b = byte_of_row(page, at, from + 1);
    page[i] = between(a, b, s % 8);
}

// Shifts each row to the left by s dots. Most labels are as wide as their page, and then no byte is touched.
fn shift_rows(page: &mut [u8], s: usize)
    requires { s ≤ dots_a_row }
    ensures { page.new ≡ redrawn (λ x y o. ltb (x + s) dots_a_row && dot_at page.old (x + s) y) page.old }
{
    if s == 0 {
        return;
    }
    let end = page.len() / BYTES_A_ROW * BYTES_A_ROW;
    for i in 0..end {
        shift_byte(page, i, s);
    }
}

// ZB: turns the page of a label of width by length by half a turn, and leaves it white outside.
pub fn turn(page: &mut [u8], width: usize, length: usize)
    ensures { page.new ≡ turned width length page.old }
{
    let rows = page.len() / BYTES_A_ROW;
    let w = width.min(DOTS_A_ROW);
    let l = length.min(rows);
    turn_rows(page, l);
    shift_rows(page, DOTS_A_ROW - w);
    let size = Size {
        width: DOTS_A_ROW,
        length: rows,
    };
    let below = Area {
        x0: 0,
        y0: l,
        x1: DOTS_A_ROW,
        y1: rows,
    };
    ink_box(page, Ink::White, size, below);
}
