// The rows of a line: those between the ends, farther than half of c from both, and those beside an end.
ghost use Rattle.std.specs.Prelude.{◌≡◌, ◌+◌, ◌≤◌};
ghost use Rattle.dots.specs.Dots.{drawn, cut};
ghost use Rattle.slanted_lines.specs.Code.{farthest, Drawable, Rooted, MiddleRows, near_line, part};

use crate::Line;
use crate::discs::{disc, line_root};
use crate::runs::{ink_run, ink_runs};
use crate::spans::{crossed, crossed_footed};
use dots::{BYTES_A_ROW, DOTS_A_ROW, Ink};
use ground::{greatest, least, less};

// Draws row y, also beside an end: the runs of the ends' discs, and that of the strip where the foot lies between the ends.
fn ink_end_row(page: &mut [u8], ink: Ink, l: Line, r: usize, right: usize, y: usize)
    requires { (Drawable l) × (Rooted l r) × (right ≤ 608) × (y ≤ farthest) }
    ensures { page.new ≡ drawn ink (part 0 y right (y + 1) (near_line l)) page.old }
{
    let between = crossed_footed(l, r, y);
    let upper = disc(l.c, l.a, l.b, y, right);
    let lower = disc(l.c, l.d, l.e, y, right);
    if upper.from < lower.from {
        ink_runs(page, ink, upper, lower, between, y, right);
        return;
    }
    ink_runs(page, ink, lower, upper, between, y, right);
}

// Draws the rows from y0 up to y1, also beside an end.
fn ink_end_rows(page: &mut [u8], ink: Ink, l: Line, r: usize, right: usize, y0: usize, y1: usize)
    requires { (Drawable l) × (Rooted l r) × (right ≤ 608) × (y0 ≤ y1) × (y1 ≤ farthest + 1) }
    ensures { page.new ≡ drawn ink (part 0 y0 right y1 (near_line l)) page.old }
{
    for y in y0..y1 {
        ink_end_row(page, ink, l, r, right, y);
    }
}

// Draws the rows from y0 up to y1, which lie between the ends, farther than half of c from both: there the line is the strip.
fn ink_middle_rows(page: &mut [u8], ink: Ink, l: Line, r: usize, right: usize, y0: usize, y1: usize)
    requires { (Drawable l) × (Rooted l r) × (right ≤ 608) × (y0 ≤ y1) × (y1 ≤ farthest + 1) × (MiddleRows l y0 y1) }
    ensures { page.new ≡ drawn ink (part 0 y0 right y1 (near_line l)) page.old }
{
    for y in y0..y1 {
        let s = crossed(l, r, y);
        ink_run(page, ink, s, y, 0, right);
    }
}

// Draws a line whose first end is the upper one, cut at width and length.
pub(crate) fn ink_down(page: &mut [u8], ink: Ink, width: usize, length: usize, l: Line)
    requires { Drawable l }
    ensures { page.new ≡ drawn ink (cut width length (near_line l)) page.old }
{
    let right = least(width, DOTS_A_ROW);
    let r = line_root(l);
    let half = l.c / 2;
    let top = less(l.b, half);
    let reach = least(l.e + half + 1, least(length, page.len() / BYTES_A_ROW));
    let bottom = greatest(top, reach);
    let middle = least(l.b + half + 1, bottom);
    let last = greatest(middle, least(less(l.e, half), bottom));
    ink_end_rows(page, ink, l, r, right, top, middle);
    ink_middle_rows(page, ink, l, r, right, middle, last);
    ink_end_rows(page, ink, l, r, right, last, bottom);
}
