// Pictures drawn. Paper 01, `GGa,b,"Name"`: "black dots set, others left". `draw` promises that of any bytes, any place and a page of any length: the page
// afterwards is the page before with the picture's black dots (`pictured` of specs/Shape.antt) set, as far as they stand within the label's width and
// length. A picture is drawn in one pass, eight dots at a time, with no room for what its runs give; rows outside the page are passed over. Bytes that
// are no legal picture (crate `pcx`) draw nothing.
#![tactic(auto)]

ghost use Rattle.std.specs.Prelude.{◌≡◌, ◌+◌, ◌*◌, ◌^◌, ◌≤◌, ◌<◌, length, get_or};
ghost use Rattle.dots.specs.Dots.{dots_a_row, drawn, cut};
ghost use Rattle.dots.specs.declared.Ink.TheVariants.{Black};
ghost use Rattle.pcx.specs.Rules.{decoded};
ghost use Rattle.picture.specs.Shape.{pictured};
ghost use Rattle.picture.specs.Steps.{dark_byte, part, Fits, spot_of};

use dots::{BYTES_A_ROW, DOTS_A_ROW, Ink};
use eights::ink_eight;
use pcx::{HEADER_BYTES, height_of, is_legal, line_bytes, next_of, times_of, width_of};

// Where a picture stands on a page: its corner, the column and the row at which it ends or is cut, the bytes of its lines, and how many of its bytes
// stand above that row.
#[derive(Clone, Copy)]
struct Spot {
    x: usize,
    y: usize,
    right: usize,
    bottom: usize,
    line: usize,
    last: usize,
}

// The mask of the black dots among the first n of a picture's byte.
fn dark_byte(v: u8, n: usize) -> u8
    requires { n ≤ 8 }
    ensures { result ≡ dark_byte v n }
{
    let m = 255 - v as u32;
    (m & (255 - (255u32 >> n))) as u8
}

// Draws a picture's byte number q, which is v.
fn ink_given(page: &mut [u8], p: Spot, q: usize, v: u8)
    requires { (q < p.last) × Fits p q page.old }
    ensures { page.new ≡ drawn Black (part p (λ _. v) q (q + 1)) page.old }
{
    let line = p.line;
    let x = p.x + q % line * 8;
    if p.right <= x {
        return;
    }
    let n = (p.right - x).min(8);
    let y = p.y + q / line;
    ink_eight(page, Ink::Black, x, y, dark_byte(v, n));
}

// Draws a picture's bytes number q up to end, each of which is v. Where v is white, and below the last row, no dot is touched.
fn ink_run(page: &mut [u8], p: Spot, q: usize, end: usize, v: u8)
    requires { (q ≤ end) × Fits p end page.old }
    ensures { page.new ≡ drawn Black (part p (λ _. v) q end) page.old }
{
    if v == 255 {
        return;
    }
    for k in q..end.min(p.last) {
        ink_given(page, p, k, v);
    }
}

// Draws what a picture's runs give, one byte of the file at a time.
fn ink_runs(page: &mut [u8], p: Spot, bytes: &[u8])
    requires { Fits p (length (decoded bytes.now)) page.old }
    ensures { page.new ≡ drawn Black (part p (λ k. get_or (decoded bytes.now) k 0) 0 (length (decoded bytes.now))) page.old }
{
    let mut n: usize = 0;
    let mut q: usize = 0;
    for i in HEADER_BYTES..bytes.len() {
        let b = bytes[i];
        let end = q + times_of(n, b);
        ink_run(page, p, q, end, b);
        n = next_of(n, b);
        q = end;
    }
}

// Where a picture stands on a page of so many rows, when it is drawn at x, y and cut at width and length.
fn spot_on(rows: usize, width: usize, length: usize, x: usize, y: usize, bytes: &[u8]) -> Spot
    requires { (x < dots_a_row) × (y < rows) × (rows < 2 ^ 60) }
    ensures { result ≡ spot_of rows width length x y bytes.now }
{
    let right = (x + width_of(bytes)).min(width);
    let bottom = (y + height_of(bytes)).min(length.min(rows));
    let line = line_bytes(bytes);
    let last = bottom.saturating_sub(y) * line;
    Spot {
        x,
        y,
        right,
        bottom,
        line,
        last,
    }
}

// Draws a picture with its upper left corner at x, y, cut at width and length.
pub fn draw(page: &mut [u8], width: usize, length: usize, x: usize, y: usize, bytes: &[u8])
    ensures { page.new ≡ drawn Black (cut width length (pictured bytes.now x y)) page.old }
{
    let rows = page.len() / BYTES_A_ROW;
    if DOTS_A_ROW <= x {
        return;
    }
    if rows <= y {
        return;
    }
    if !is_legal(bytes) {
        return;
    }
    let spot = spot_on(rows, width, length, x, y, bytes);
    ink_runs(page, spot, bytes);
}
