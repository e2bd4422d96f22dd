// Bitmaps on a page of dots: rows of whole bytes, each dot scaled, in a box that is turned clockwise by quarters and cut at the label's width and length.
// Paper 01 draws each glyph of a text so. `ink_bitmap` promises `drawn ink (on_label spot (shifted .. (scaled .. (bitmap ..))))` of the page, by the
// definitions of figures/Figures, for any page, any bytes and any numbers. A row is drawn in runs of equal dots; where nothing is turned and each dot
// is one dot wide, it is drawn eight dots at a time.
#![tactic(auto)]

ghost use Rattle.std.specs.Prelude.{◌≡◌, ◌+◌, ◌-◌, ◌*◌, ◌/◌, ◌^◌, ◌≤◌, ◌<◌, min, ◌&&◌, get_or};
ghost use Rattle.std.specs.Int.Bits.{bit_and};
ghost use Rattle.std.specs.Int.Count.{count_leading_zeros};
ghost use Rattle.dots.specs.Dots.{bit_of, drawn, box, cut};
ghost use Rattle.ground.specs.Numbers.{capped};
ghost use Rattle.figures.specs.Figures.{bitmap as bitmap_of, bit_row, row_of, scaled, shifted, placed, on_label};
ghost use Rattle.bitmaps.specs.Run.{Run};

use dots::Ink;
use eights::ink_eights;
use figures::{Area, Spot, ink_part};
use ground::{capped_sum, least, less};

// A bitmap of `wide` by `high` dots, whose rows are of `stride` bytes; each dot is drawn hm dots wide and vm high.
#[derive(Clone, Copy)]
pub struct Bitmap<'a> {
    pub bits: &'a [u8],
    pub stride: usize,
    pub wide: usize,
    pub high: usize,
    pub hm: usize,
    pub vm: usize,
}

// One row of a bitmap: the `wide` dots from byte `at` on, each m dots wide, as the rows v0 up to v1 of a figure that starts at d.
#[derive(Clone, Copy)]
struct Row<'a> {
    bits: &'a [u8],
    at: usize,
    wide: usize,
    m: usize,
    d: usize,
    v0: usize,
    v1: usize,
}

// The same as `edge`, for numbers of which one may be so large that the product does not fit.
fn far_edge(d: usize, g: usize, m: usize) -> usize
    ensures { result ≡ capped (d + g * m) }
{
    if m == 0 {
        return d;
    }
    let room = 18446744073709551615 - d;
    if room / m < g {
        return 18446744073709551615;
    }
    d + g * m
}

// d and g times m, or the greatest number there is. Cells and scales are small, and small numbers need no division to see that the product fits.
fn edge(d: usize, g: usize, m: usize) -> usize
    ensures { result ≡ capped (d + g * m) }
{
    if g < 4294967296 {
        if m < 4294967296 {
            return capped_sum(d, g * m);
        }
    }
    far_edge(d, g, m)
}

// The first black dot of a byte after dot k, 8 where there is none.
fn next_black(b: u8, k: usize) -> usize
    requires { k < 8 }
    ensures { result ≡ count_leading_zeros 8 (bit_and b (127 / 2 ^ k)) }
{
    u8::leading_zeros(b & (127 >> k)) as usize
}

// Where the run of equal dots of a byte ends that starts at dot k, which is on or off.
fn run_in_byte(b: u8, k: usize, on: bool) -> usize
    requires { (k < 8) × (on ≡ bit_of b k) }
    ensures { Run (bit_of b) k 8 result }
{
    if on {
        return next_black(255 - b, k);
    }
    next_black(b, k)
}

impl<'a> Row<'a> {
    // The byte of dot g, white past the end.
    fn byte(self, g: usize) -> u8
        ensures { result ≡ get_or self.entry.bits.now (self.entry.at + g / 8) 0 }
    {
        ground::byte(self.bits, capped_sum(self.at, g / 8))
    }

    // Whether dot g is black.
    fn black(self, g: usize) -> bool
        ensures { result ≡ bit_row self.entry.bits.now self.entry.at g }
    {
        (self.byte(g) >> (7 - g % 8)) % 2 == 1
    }

    // Where a run of equal dots ends that starts at dot g, which is on or off; no run goes on into the next byte.
    fn run_end(self, g: usize, on: bool) -> usize
        requires { (g < self.wide) × (on ≡ bit_row self.bits.now self.at g) }
        ensures { Run (bit_row self.entry.bits.now self.entry.at) g self.entry.wide result }
    {
        let k = g % 8;
        let end = run_in_byte(self.byte(g), k, on);
        g + least(end - k, self.wide - g)
    }
}

// Draws the cells g up to e of a row, as `ink_part` does, where they are on.
fn ink_run(page: &mut [u8], ink: Ink, spot: Spot, row: Row, on: bool, g: usize, e: usize)
    ensures { page.new ≡ drawn ink (on_label spot (λ u v. on && box (capped (row.entry.d + g * row.entry.m)) row.entry.v0 (capped (row.entry.d + e * row.entry.m)) row.entry.v1 u v)) page.old }
{
    if !on {
        return;
    }
    let part = Area {
        x0: edge(row.d, g, row.m),
        y0: row.v0,
        x1: edge(row.d, e, row.m),
        y1: row.v1,
    };
    ink_part(page, ink, spot, part);
}

// Draws one row of a bitmap in runs.
fn ink_runs(page: &mut [u8], ink: Ink, spot: Spot, row: Row)
    ensures { page.new ≡ drawn ink (on_label spot (shifted row.entry.d (row_of (bit_row row.entry.bits.now row.entry.at) row.entry.wide row.entry.m row.entry.v0 row.entry.v1))) page.old }
{
    let mut g = 0;
    // A while: the step is as long as the run of equal dots that stands there.
    while g < row.wide {
        let on = row.black(g);
        let e = row.run_end(g, on);
        ink_run(page, ink, spot, row, on, g, e);
        g = e;
    }
}

// The first n dots of a byte.
fn first_dots(b: u8, n: usize) -> u8
    requires { n ≤ 8 }
    ensures { result ≡ bit_and b (255 - 255 / 2 ^ n) }
{
    (b as u32 & (255 - (255u32 >> n))) as u8
}

// Draws the dots of the byte b as the dots from g on of a row, where the figure is not turned and each dot is one dot wide.
fn ink_eight(page: &mut [u8], ink: Ink, spot: Spot, row: Row, b: u8, g: usize)
    requires { g < row.wide }
    ensures { page.new ≡ drawn ink (cut spot.corner.size.width spot.corner.size.length (placed 0 spot.wide spot.high spot.corner.x spot.corner.y (shifted row.entry.d (λ u v. box g row.entry.v0 (min (g + 8) row.entry.wide) row.entry.v1 u v && bit_of b (u - g))))) page.old }
{
    if b == 0 {
        return;
    }
    let left = capped_sum(row.d, g);
    let from = capped_sum(spot.corner.x, left);
    let cells = least(8, row.wide - g);
    let seen = least(less(spot.wide, left), less(spot.corner.size.width, from));
    let m = first_dots(b, least(cells, seen));
    let top = capped_sum(spot.corner.y, row.v0);
    let end = capped_sum(spot.corner.y, least(row.v1, spot.high));
    ink_eights(page, ink, from, top, least(end, spot.corner.size.length), m);
}

// Draws one row of a bitmap byte by byte, as `ink_row` does, where the figure is not turned and each dot is one dot wide.
fn ink_bytes(page: &mut [u8], ink: Ink, spot: Spot, row: Row)
    ensures { page.new ≡ drawn ink (cut spot.corner.size.width spot.corner.size.length (placed 0 spot.wide spot.high spot.corner.x spot.corner.y (shifted row.entry.d (row_of (bit_row row.entry.bits.now row.entry.at) row.entry.wide 1 row.entry.v0 row.entry.v1)))) page.old }
{
    let n = row.wide / 8 + (row.wide % 8 + 7) / 8;
    for k in 0..n {
        let b = row.byte(k * 8);
        ink_eight(page, ink, spot, row, b, k * 8);
    }
}

// Draws one row of a bitmap.
fn ink_row(page: &mut [u8], ink: Ink, spot: Spot, row: Row)
    ensures { page.new ≡ drawn ink (on_label spot (shifted row.entry.d (row_of (bit_row row.entry.bits.now row.entry.at) row.entry.wide row.entry.m row.entry.v0 row.entry.v1))) page.old }
{
    if row.m == 1 {
        if spot.corner.r % 4 == 0 {
            ink_bytes(page, ink, spot, row);
            return;
        }
    }
    ink_runs(page, ink, spot, row);
}

// Draws a bitmap, d to the right of the corner of a figure whose box stands at a spot.
pub fn ink_bitmap(page: &mut [u8], ink: Ink, spot: Spot, d: usize, bitmap: Bitmap)
    ensures { page.new ≡ drawn ink (on_label spot (shifted d (scaled bitmap.entry.wide bitmap.entry.high bitmap.entry.hm bitmap.entry.vm (bitmap_of bitmap.entry.bits.now bitmap.entry.stride)))) page.old }
{
    for g in 0..bitmap.high {
        let row = Row {
            bits: bitmap.bits,
            at: edge(0, g, bitmap.stride),
            wide: bitmap.wide,
            m: bitmap.hm,
            d,
            v0: edge(0, g, bitmap.vm),
            v1: edge(0, g + 1, bitmap.vm),
        };
        ink_row(page, ink, spot, row);
    }
}
