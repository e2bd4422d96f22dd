// Figures on a page of dots: dots in a box of their own, turned clockwise by quarters and cut at the label's width and length.
// Paper 01 turns text and bars so: the upper left corner of the turned box stands at x,y. `placed` of specs/Figures.antt is that shape, one
// definition for all turns, and `ink_part` promises `drawn ink (on_label spot ..)` of the page for a box of a figure, for any page and any
// numbers. Bitmaps, scaled and turned, are drawn by `bitmaps`. Which figures there are, a glyph or the bars of a symbol, is left to the crates above.
#![tactic(auto)]

ghost use Rattle.std.specs.Prelude.{◌≡◌, ◌+◌};
ghost use Rattle.dots.specs.Dots.{drawn, box, cut};
ghost use Rattle.figures.specs.Figures.{on_label};

use boxes::ink_box;
pub use boxes::{Area, Size};
use dots::Ink;
use ground::{capped_sum, least, less};

// Where a box stands on a label: the label's size, that cuts it, its quarter turns, and the upper left corner (x, y) of the turned box.
#[derive(Clone, Copy)]
pub struct Corner {
    pub size: Size,
    pub r: usize,
    pub x: usize,
    pub y: usize,
}

// The box of a figure: where it stands, and its own size before the turn.
#[derive(Clone, Copy)]
pub struct Spot {
    pub corner: Corner,
    pub wide: usize,
    pub high: usize,
}

// Draws the box p0 up to p1, q0 up to q1 that is counted from a corner.
fn ink_from(page: &mut [u8], ink: Ink, at: Corner, p0: usize, q0: usize, p1: usize, q1: usize)
    ensures { page.new ≡ drawn ink (cut at.size.width at.size.length (box (at.x + p0) (at.y + q0) (at.x + p1) (at.y + q1))) page.old }
{
    let area = Area {
        x0: capped_sum(at.x, p0),
        y0: capped_sum(at.y, q0),
        x1: capped_sum(at.x, p1),
        y1: capped_sum(at.y, q1),
    };
    ink_box(page, ink, at.size, area);
}

// Draws a part of a figure whose box stands at a spot.
pub fn ink_part(page: &mut [u8], ink: Ink, spot: Spot, part: Area)
    ensures { page.new ≡ drawn ink (on_label spot (box part.x0 part.y0 part.x1 part.y1)) page.old }
{
    let at = spot.corner;
    let u1 = least(part.x1, spot.wide);
    let v1 = least(part.y1, spot.high);
    let left = less(spot.wide, u1);
    let right = less(spot.wide, part.x0);
    let top = less(spot.high, v1);
    let bottom = less(spot.high, part.y0);
    match at.r % 4 {
        0 => ink_from(page, ink, at, part.x0, part.y0, u1, v1),
        1 => ink_from(page, ink, at, top, part.x0, bottom, u1),
        2 => ink_from(page, ink, at, left, top, right, bottom),
        _ => ink_from(page, ink, at, part.y0, left, v1, right),
    }
}
