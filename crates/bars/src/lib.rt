// Bars: a symbol's elements to dots on a page.
//
// Paper 01, `Bx,y,r,t,e,f,g,N,data`: narrow e and wide f, or modules of e; bars black over the height g, spaces left as they are, the whole turned and cut.
// `draw` is `bars_drawn` of specs/Drawing.antt, for any bytes and any numbers; what is unfit, or out of its limits, draws nothing.
// The elements come from `symbols`; how boxes are turned and cut stands in `figures`.
#![tactic(auto)]

ghost use Rattle.std.specs.Prelude.{◌≡◌, map, ◌*◌, ◌≤◌, ◌&&◌};
ghost use Rattle.std.proofs.Math.ListN;
ghost use Rattle.kinds.specs.Bytes.{between};
ghost use Rattle.dots.specs.declared.Ink.TheVariants.{Black};
ghost use Rattle.dots.specs.Dots.{within, drawn, cut};
ghost use Rattle.figures.specs.Figures.{placed, on_label};
ghost use Rattle.code128.specs.Widths.{sum};
ghost use Rattle.symbols.specs.Laid.{most_elements};
ghost use Rattle.bars.specs.Drawing.{in_limits, dots_of, widths, bars, bars_drawn};

use dots::Ink;
use figures::{Area, Corner, Spot, ink_part};
use ground::{both, wide};
use kinds::Kind;
use symbols::{MOST_ELEMENTS, elements};

// Bars as a line asks for them: the kind of symbol, "narrow e", "wide f", "height g".
#[derive(Clone, Copy)]
pub struct Bars {
    pub kind: Kind,
    pub e: usize,
    pub f: usize,
    pub g: usize,
}

// What makes the dots of an element: the kind of symbol, narrow e and wide f.
#[derive(Clone, Copy)]
pub struct Widths {
    pub kind: Kind,
    pub e: u8,
    pub f: u8,
}

fn is_between(lo: usize, hi: usize, n: usize) -> bool
    ensures { result ≡ between lo hi n }
{
    if n < lo {
        return false;
    }
    n <= hi
}

pub fn in_limits(b: Bars) -> bool
    ensures { result ≡ in_limits b.e b.f b.g }
{
    let sizes = both(is_between(1, 6, b.e), is_between(2, 10, b.f));
    let above = both(b.e < b.f, is_between(24, 1000, b.g));
    both(sizes, above)
}

fn modules(e: u8, w: u8) -> usize
    ensures { (result ≡ w * e) × (result ≤ 65025) }
{
    let modules = wide(w);
    modules * wide(e)
}

fn narrow_or_wide(e: u8, f: u8, w: u8) -> usize
    ensures { (result ≡ dots_of Kind.Code39 e f w) × (result ≤ 65025) }
{
    if w == 2 {
        return wide(f);
    }
    wide(e)
}

// The width in dots of an element of width w.
pub fn width(by: Widths, w: u8) -> usize
    ensures { (result ≡ dots_of by.kind by.e by.f w) × (result ≤ 65025) }
{
    match by.kind {
        Kind::Shown => 0,
        Kind::Code39 => narrow_or_wide(by.e, by.f, w),
        Kind::Interleaved => narrow_or_wide(by.e, by.f, w),
        Kind::Ean13 => modules(by.e, w),
        Kind::Code128 => modules(by.e, w),
    }
}

// `breadth` and `place` ask, with at most 1,299 elements.
fn total(by: Widths, ws: &[u8]) -> usize
    requires { ListN.length ws.now ≤ 1300 }
    ensures { (result ≡ sum (map (dots_of by.kind by.e by.f) ws.now)) × (result ≤ 65025 * ListN.length ws.now) }
{
    let mut sum: usize = 0;
    for w in ws {
        sum += width(by, *w);
    }
    sum
}

// How many dots wide the bars of data are: 1,299 elements of 65,025 dots at most.
pub fn breadth(by: Widths, bytes: &[u8]) -> usize
    ensures { (result ≡ sum (widths by.kind by.e by.f bytes.now)) × (result ≤ 84467475) }
{
    let mut ws = [0u8; MOST_ELEMENTS];
    let n = elements(by.kind, bytes, &mut ws);
    total(by, &ws[..n])
}

// Draws an element from dot `at` up to `end`, over the whole height, where it is a bar.
fn stroke(page: &mut [u8], spot: Spot, bar: bool, at: usize, end: usize)
    ensures { page.new ≡ drawn Black (on_label spot (λ u v. bar && within at end u)) page.old }
{
    if !bar {
        return;
    }
    let part = Area {
        x0: at,
        y0: 0,
        x1: end,
        y1: spot.high,
    };
    ink_part(page, Ink::Black, spot, part);
}

// Draws the bars of elements in a box: every other element, the first among them.
fn strokes(page: &mut [u8], spot: Spot, by: Widths, ws: &[u8])
    requires { ListN.length ws.now ≤ 1300 }
    ensures { page.new ≡ drawn Black (on_label spot (bars (map (dots_of by.kind by.e by.f) ws.now))) page.old }
{
    let mut at: usize = 0;
    let mut bar = true;
    for w in ws {
        let end = at + width(by, *w);
        stroke(page, spot, bar, at, end);
        at = end;
        bar = !bar;
    }
}

// Draws bars whose elements are written into a lent list.
fn place(page: &mut [u8], corner: Corner, b: Bars, bytes: &[u8], ws: &mut [u8])
    requires { (b.e ≤ 6) × (b.f ≤ 10) × (most_elements ≤ ListN.length ws.old) }
    ensures { page.new ≡ drawn Black (cut corner.size.width corner.size.length (placed corner.r (sum (widths b.kind b.e b.f bytes.now)) b.g corner.x corner.y (bars (widths b.kind b.e b.f bytes.now)))) page.old }
{
    let n = elements(b.kind, bytes, ws);
    let by = Widths {
        kind: b.kind,
        e: b.e as u8,
        f: b.f as u8,
    };
    let spot = Spot {
        corner,
        wide: total(by, &ws[..n]),
        high: b.g,
    };
    strokes(page, spot, by, &ws[..n]);
}

// Draws the bars of data in a box of g dots high from a corner.
pub fn draw(page: &mut [u8], corner: Corner, b: Bars, bytes: &[u8])
    ensures { page.new ≡ bars_drawn corner.size.width corner.size.length corner.x corner.y corner.r b.kind b.e b.f b.g bytes.now page.old }
{
    if in_limits(b) {
        let mut ws = [0u8; MOST_ELEMENTS];
        place(page, corner, b, bytes, &mut ws);
    }
}
