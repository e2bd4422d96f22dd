// Eight dots at a time. Pictures and upright text come in bytes of eight dots, and this crate sets the dots of such a byte on the page from any dot on,
// in each of some rows, in one or two bytes of a row. `ink_eights` promises one equation between the page at exit and the page at entry: the dots of
// `eights` (specs/Eights.antt) are inked and all else is as it was. What reaches past a row's end or below the page is not drawn.
#![tactic(auto)]

ghost use Rattle.std.specs.Prelude.{◌≡◌, ◌+◌, ◌*◌, ◌≤◌, length};
ghost use Rattle.dots.specs.Dots.{bytes_a_row, drawn};
ghost use Rattle.eights.specs.Eights.{eights};

use dots::{BYTES_A_ROW, Ink, ink_dots};
use ground::least;

// Draws the dots of the mask m in byte i of row y, where a row has it.
fn ink_mask(page: &mut [u8], ink: Ink, i: usize, y: usize, m: u8)
    requires { y * bytes_a_row + bytes_a_row ≤ length page.old }
    ensures { page.new ≡ drawn ink (eights (i * 8) y (y + 1) m) page.old }
{
    if BYTES_A_ROW <= i {
        return;
    }
    let at = y * BYTES_A_ROW + i;
    page[at] = ink_dots(ink, page[at], m);
}

// Draws the dots of the byte m from x on in row y: they stand in one byte of the page or two.
fn ink_pair(page: &mut [u8], ink: Ink, x: usize, y: usize, m: u8)
    requires { y * bytes_a_row + bytes_a_row ≤ length page.old }
    ensures { page.new ≡ drawn ink (eights x y (y + 1) m) page.old }
{
    let i = x / 8;
    let pair = (m as u32 * 256) >> (x % 8);
    ink_mask(page, ink, i, y, (pair / 256) as u8);
    ink_mask(page, ink, i + 1, y, (pair % 256) as u8);
}

// Draws the dots of the byte m from x on in each row from y0 up to y1.
pub fn ink_eights(page: &mut [u8], ink: Ink, x: usize, y0: usize, y1: usize, m: u8)
    ensures { page.new ≡ drawn ink (eights x y0 y1 m) page.old }
{
    let bottom = least(y1, page.len() / BYTES_A_ROW);
    for y in y0..bottom {
        ink_pair(page, ink, x, y, m);
    }
}

// The same in one row alone: what a byte of a picture takes.
pub fn ink_eight(page: &mut [u8], ink: Ink, x: usize, y: usize, m: u8)
    ensures { page.new ≡ drawn ink (eights x y (y + 1) m) page.old }
{
    if page.len() / BYTES_A_ROW <= y {
        return;
    }
    ink_pair(page, ink, x, y, m);
}
