// Boxes. Paper 01: `LO` draws a box black, `LW` white, and `LE` inverts its dots. `ink_box` promises one equation between the page at exit and the page
// at entry, for a page of any length and any numbers: the dots of the box (`box` of dots/Dots) are inked as far as width and length reach, and all
// else is as it was. A box is drawn row by row, and of each row a part of the first byte, whole bytes, and a part of the last.
#![tactic(auto)]

ghost use Rattle.std.specs.Prelude.{◌≡◌, ◌+◌, ◌*◌, ◌≤◌, ◌<◌, length};
ghost use Rattle.dots.specs.Dots.{bytes_a_row, dots_a_row, drawn, box, cut};

use dots::{BYTES_A_ROW, DOTS_A_ROW, Ink, ink_dots, span_mask};
use ground::least;

// The label's width and length, which cut whatever is drawn.
#[derive(Clone, Copy)]
pub struct Size {
    pub width: usize,
    pub length: usize,
}

// A box of dots: those from x0 up to, not including, x1 of the rows from y0 up to, not including, y1.
#[derive(Clone, Copy)]
pub struct Area {
    pub x0: usize,
    pub y0: usize,
    pub x1: usize,
    pub y1: usize,
}

// Draws the dots lo up to hi of byte i of row y.
fn ink_byte(page: &mut [u8], ink: Ink, y: usize, i: usize, lo: usize, hi: usize)
    requires { (i < bytes_a_row) × (y * bytes_a_row + bytes_a_row ≤ length page.old) × (lo ≤ hi) × (hi ≤ 8) }
    ensures { page.new ≡ drawn ink (box (i * 8 + lo) y (i * 8 + hi) (y + 1)) page.old }
{
    let at = y * BYTES_A_ROW + i;
    let m = span_mask(lo, hi);
    page[at] = ink_dots(ink, page[at], m);
}

// Draws the bytes i up to j of row y whole.
fn ink_bytes(page: &mut [u8], ink: Ink, y: usize, i: usize, j: usize)
    requires { (i ≤ j) × (j ≤ bytes_a_row) × (y * bytes_a_row + bytes_a_row ≤ length page.old) }
    ensures { page.new ≡ drawn ink (box (i * 8) y (j * 8) (y + 1)) page.old }
{
    for n in i..j {
        ink_byte(page, ink, y, n, 0, 8);
    }
}

// Draws the dots x0 up to x1 of row y: a part of the first byte, whole bytes, and a part of the last.
fn ink_span(page: &mut [u8], ink: Ink, y: usize, x0: usize, x1: usize)
    requires { (x0 < x1) × (x1 ≤ dots_a_row) × (y * bytes_a_row + bytes_a_row ≤ length page.old) }
    ensures { page.new ≡ drawn ink (box x0 y x1 (y + 1)) page.old }
{
    let i = x0 / 8;
    let j = x1 / 8;
    if i == j {
        ink_byte(page, ink, y, i, x0 % 8, x1 % 8);
        return;
    }
    ink_byte(page, ink, y, i, x0 % 8, 8);
    ink_bytes(page, ink, y, i + 1, j);
    if 0 < x1 % 8 {
        ink_byte(page, ink, y, j, 0, x1 % 8);
    }
}

// LO, LW, LE: draws the dots of a box in an ink, cut at width and length.
pub fn ink_box(page: &mut [u8], ink: Ink, size: Size, area: Area)
    ensures { page.new ≡ drawn ink (cut size.width size.length (box area.x0 area.y0 area.x1 area.y1)) page.old }
{
    let right = least(least(area.x1, size.width), DOTS_A_ROW);
    let bottom = least(least(area.y1, size.length), page.len() / BYTES_A_ROW);
    if right <= area.x0 {
        return;
    }
    for y in area.y0..bottom {
        ink_span(page, ink, y, area.x0, right);
    }
}
