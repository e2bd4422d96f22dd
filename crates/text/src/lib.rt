// Text. Paper 01, `Ax,y,r,h,v,m,data`: the cells of a text side by side in one box, scaled, turned by quarters and cut as a whole; "N sets glyph dots
// black; R sets the whole cell black, glyph dots white". `draw` promises one equation on the page (`text_drawn` of specs/Text.antt), for any bytes as a
// font, any text and any numbers. A text of more than 128 bytes and a scale beyond its limits draw nothing. Whoever draws judges the font once before.
// Who asks for a text, and with what data, is left to others.
#![tactic(auto)]

ghost use Rattle.std.specs.Prelude.{◌≡◌, ◌≤◌, length as length_of};
ghost use Rattle.dots.specs.declared.Ink.TheVariants.{Black};
ghost use Rattle.dots.specs.Dots.{drawn, box};
ghost use Rattle.font.specs.Rules.{Places};
ghost use Rattle.figures.specs.Figures.{on_label};
ghost use Rattle.text.specs.Text.{glyphs, drawable, in_mode, text_drawn};
ghost use Rattle.kinds.specs.Fit.{most_data};

use bitmaps::{Bitmap, ink_bitmap};
use dots::Ink;
pub use figures::{Corner, Size};
use figures::{Area, Spot, ink_part};
use font::{cell_height, cell_width, places, row_bytes, rows_at};
use ground::both;
use kinds::MOST_DATA;

// "h 1..6, v 1..9 scale the cell": each of its dots is h dots wide and v high.
#[derive(Clone, Copy)]
pub struct Scale {
    pub h: usize,
    pub v: usize,
}

// Whether a text is drawn at all. The font is not judged here: who draws has judged it once for all the texts of a label.
fn drawable_ok(scale: Scale, text: &[u8]) -> bool
    ensures { result ≡ drawable scale.h scale.v text.now }
{
    both(scale.h <= 6, both(scale.v <= 9, text.len() <= MOST_DATA))
}

// Draws the glyphs of a text, whose places are found.
fn ink_found(
    page: &mut [u8],
    ink: Ink,
    s: Spot,
    scale: Scale,
    font: &[u8],
    places: &[usize],
    text: &[u8],
)
    requires { (scale.h ≤ 6) × (length_of text.now ≤ most_data) × Places font.now places.now 0 0 }
    ensures { page.new ≡ drawn ink (on_label s (glyphs font.now scale.h scale.v text.now)) page.old }
{
    let wide = cell_width(font);
    let high = cell_height(font);
    let stride = row_bytes(font);
    let step = wide * scale.h;
    let mut u: usize = 0;
    for b in text {
        let glyph = Bitmap {
            bits: rows_at(font, places[*b as usize]),
            stride,
            wide,
            high,
            hm: scale.h,
            vm: scale.v,
        };
        ink_bitmap(page, ink, s, u, glyph);
        u += step;
    }
}

// Draws the glyphs of a text.
fn ink_glyphs(page: &mut [u8], ink: Ink, s: Spot, scale: Scale, font: &[u8], text: &[u8])
    requires { (scale.h ≤ 6) × (length_of text.now ≤ most_data) }
    ensures { page.new ≡ drawn ink (on_label s (glyphs font.now scale.h scale.v text.now)) page.old }
{
    let found = places(font);
    ink_found(page, ink, s, scale, font, &found, text);
}

// Blackens the whole box of a text.
fn ink_cells(page: &mut [u8], s: Spot)
    ensures { page.new ≡ drawn Black (on_label s (box 0 0 s.wide s.high)) page.old }
{
    let all = Area {
        x0: 0,
        y0: 0,
        x1: s.wide,
        y1: s.high,
    };
    ink_part(page, Ink::Black, s, all);
}

// Draws a text in its mode.
fn ink_text(page: &mut [u8], reverse: bool, s: Spot, scale: Scale, font: &[u8], text: &[u8])
    requires { (scale.h ≤ 6) × (length_of text.now ≤ most_data) }
    ensures { page.new ≡ in_mode reverse s (glyphs font.now scale.h scale.v text.now) page.old }
{
    if reverse {
        ink_cells(page, s);
        ink_glyphs(page, Ink::White, s, scale, font, text);
    } else {
        ink_glyphs(page, Ink::Black, s, scale, font, text);
    }
}

// `Ax,y,r,h,v,m,data`: draws a text from a corner, cut at width and length; reverse is mode R.
pub fn draw(page: &mut [u8], corner: Corner, scale: Scale, reverse: bool, font: &[u8], text: &[u8])
    ensures { page.new ≡ text_drawn corner.size.width corner.size.length corner.x corner.y corner.r scale.h scale.v reverse font.now text.now page.old }
{
    if !drawable_ok(scale, text) {
        return;
    }
    let s = Spot {
        corner,
        wide: text.len() * (cell_width(font) * scale.h),
        high: cell_height(font) * scale.v,
    };
    ink_text(page, reverse, s, scale, font, text);
}
