// Frames. Paper 01, `Xa,b,c,d,e`: a black frame between two corners, "less the rectangle shrunk by c on each side". `ink_frame` promises one equation
// between the page at exit and the page at entry, for a page of any length and any numbers: the dots of the frame (`frame` of specs/Frame.antt) are
// black as far as width and length reach, and all else is as it was. A frame is drawn as four boxes, a band at each of its sides.
#![tactic(auto)]

ghost use Rattle.std.specs.Prelude.{◌≡◌, ◌+◌, ◌-◌, ◌≤◌, min, max};
ghost use Rattle.dots.specs.declared.Ink.TheVariants.{Black};
ghost use Rattle.dots.specs.Dots.{drawn, cut};
ghost use Rattle.frames.specs.Frame.{hollow, frame};

use boxes::{Area, Size, ink_box};
use dots::Ink;

// Where a band of thickness c ends that starts at `from`, and no further than `to`.
fn band_end(from: usize, to: usize, c: usize) -> usize
    requires { from ≤ to }
    ensures { result ≡ min (from + c) to }
{
    from + c.min(to - from)
}

// Where a band of thickness c starts that ends at `to`, and no nearer than `from`.
fn band_start(from: usize, to: usize, c: usize) -> usize
    requires { from ≤ to }
    ensures { result ≡ max (to - c) from }
{
    to - c.min(to - from)
}

// Draws a box less the box that is shrunk by c on each side black, cut at width and length: the bands at its four sides.
fn ink_sides(
    page: &mut [u8],
    width: usize,
    length: usize,
    c: usize,
    x0: usize,
    y0: usize,
    x1: usize,
    y1: usize,
)
    requires { (x0 ≤ x1) × (y0 ≤ y1) }
    ensures { page.new ≡ drawn Black (cut width length (hollow c x0 y0 x1 y1)) page.old }
{
    let top = band_end(y0, y1, c);
    let bottom = band_start(y0, y1, c);
    let left = band_end(x0, x1, c);
    let right = band_start(x0, x1, c);
    let size = Size { width, length };
    let all = Area { x0, y0, x1, y1 };
    ink_box(page, Ink::Black, size, Area { y1: top, ..all });
    ink_box(page, Ink::Black, size, Area { y0: bottom, ..all });
    ink_box(page, Ink::Black, size, Area { x1: left, ..all });
    ink_box(page, Ink::Black, size, Area { x0: right, ..all });
}

// X: draws the frame of thickness c between the corners (a, b) and (d, e) black, cut at width and length.
pub fn ink_frame(
    page: &mut [u8],
    width: usize,
    length: usize,
    a: usize,
    b: usize,
    c: usize,
    d: usize,
    e: usize,
)
    ensures { page.new ≡ drawn Black (cut width length (frame a b c d e)) page.old }
{
    let x0 = a.min(d);
    let y0 = b.min(e);
    let x1 = a.max(d);
    let y1 = b.max(e);
    ink_sides(page, width, length, c, x0, y0, x1, y1);
}
