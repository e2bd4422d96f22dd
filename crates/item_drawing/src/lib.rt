// What an item draws on a page, from an origin: one function a kind of item.
//
// R's origin "is added to coordinates after it"; the sums are not limited, and "Drawing is cut at width and length." Text and bars show the data of their line for
// the values that are lent and the clock, boxes, frames and slanted lines are inked, and GG draws the picture of its name where it is stored. A V, a C and a
// format draw nothing. `draw_item` leaves the page that the definition (specs/Draw.antt) says, for any item, memory and page. How text, bars and pictures look
// stands in crates `text`, `lined` and `picture`, how a whole form is drawn in crate `form_drawing`.
#![tactic(auto)]

ghost use Rattle.std.specs.Prelude.{◌≡◌, true, take};
ghost use Rattle.pieces.specs.Elements.{elements};
ghost use Rattle.pieces.specs.Data.{assembled, values_in};
ghost use Rattle.contents.specs.Content.{content};
ghost use Rattle.finding.specs.Find.{titled_at};
ghost use Rattle.parts.specs.Names.{packed_of};
ghost use Rattle.dots.specs.Dots.{drawn, cut, box};
ghost use Rattle.frames.specs.Frame.{frame};
ghost use Rattle.dots.specs.declared.Ink.TheVariants.{Black};
ghost use Rattle.slanted_lines.specs.Slanted.{slanted};
ghost use Rattle.picture.specs.Shape.{pictured};
ghost use Rattle.text.specs.Text.{text_drawn};
ghost use Rattle.lined.specs.Lined.{bars_with};
ghost use Rattle.item_drawing.specs.Draw.{setting, bytes_at, draws_item, far as far_of};

pub use boxes::Size;
use boxes::{Area, ink_box};
use calendar::Clock;
use counters::Counters;
use declarations::Declared;
use grammar::{Bars, Frame, Item, Origin, Picture, Rectangle, Slant, Text};
use ground::{front, least};
use lined::Corner;
use text::Scale;

// What a label, or a command outside a form, is drawn with.
#[derive(Clone, Copy)]
pub struct Setting<'a> {
    pub font: &'a [u8],
    pub store: &'a [u8],
    pub links: &'a [u16],
    pub directory: &'a [u8],
    pub values: &'a [u8],
    pub counters: Counters,
    pub clock: Clock,
    pub size: Size,
}

fn far(a: usize, b: usize) -> usize
    ensures { result ≡ far_of a b }
{
    least(least(a, 4294967295) + least(b, 4294967295), 4294967295)
}

fn draw_text<'a>(
    page: &mut [u8],
    s: Setting<'a>,
    d: Declared,
    origin: Origin,
    line: &'a [u8],
    t: Text,
)
    ensures { page.new ≡ text_drawn s.entry.size.width s.entry.size.length (far_of origin.x t.x) (far_of origin.y t.y) t.r t.h t.v t.reverse s.entry.font.now (take 128 (assembled line.now d (values_in s.entry.values.now s.entry.counters s.entry.clock) (elements line.now t.at))) page.old }
{
    let mut buffer = [0u8; 128];
    let n = pieces::assemble(line, t.at, d, s.values, s.counters, s.clock, &mut buffer);
    let corner = Corner {
        size: s.size,
        r: t.r,
        x: far(origin.x, t.x),
        y: far(origin.y, t.y),
    };
    let scale = Scale { h: t.h, v: t.v };
    text::draw(page, corner, scale, t.reverse, s.font, front(&buffer, n));
}

fn draw_bars<'a>(
    page: &mut [u8],
    s: Setting<'a>,
    d: Declared,
    origin: Origin,
    line: &'a [u8],
    b: Bars,
)
    ensures { page.new ≡ bars_with s.entry.size.width s.entry.size.length (far_of origin.x b.x) (far_of origin.y b.y) b.r b.kind b.e b.f b.g b.under s.entry.font.now (take 128 (assembled line.now d (values_in s.entry.values.now s.entry.counters s.entry.clock) (elements line.now b.at))) page.old }
{
    let mut buffer = [0u8; 128];
    let n = pieces::assemble(line, b.at, d, s.values, s.counters, s.clock, &mut buffer);
    let corner = Corner {
        size: s.size,
        r: b.r,
        x: far(origin.x, b.x),
        y: far(origin.y, b.y),
    };
    let bars = lined::Bars {
        kind: b.kind,
        e: b.e,
        f: b.f,
        g: b.g,
    };
    lined::draw(page, corner, bars, b.under, s.font, front(&buffer, n));
}

fn draw_box(page: &mut [u8], size: Size, origin: Origin, r: Rectangle)
    ensures { page.new ≡ drawn r.ink (cut size.width size.length (box (far_of origin.x r.a) (far_of origin.y r.b) (far_of (far_of origin.x r.a) r.c) (far_of (far_of origin.y r.b) r.d))) page.old }
{
    let x0 = far(origin.x, r.a);
    let y0 = far(origin.y, r.b);
    let area = Area {
        x0,
        y0,
        x1: far(x0, r.c),
        y1: far(y0, r.d),
    };
    ink_box(page, r.ink, size, area);
}

fn draw_frame(page: &mut [u8], size: Size, origin: Origin, f: Frame)
    ensures { page.new ≡ drawn Black (cut size.width size.length (frame (far_of origin.x f.a) (far_of origin.y f.b) f.c (far_of origin.x f.d) (far_of origin.y f.e))) page.old }
{
    let a = far(origin.x, f.a);
    let b = far(origin.y, f.b);
    let d = far(origin.x, f.d);
    let e = far(origin.y, f.e);
    frames::ink_frame(page, size.width, size.length, a, b, f.c, d, e);
}

// "R is added to both ends."
fn draw_slant(page: &mut [u8], size: Size, origin: Origin, l: Slant)
    ensures { page.new ≡ drawn l.ink (cut size.width size.length (slanted (far_of origin.x l.a) (far_of origin.y l.b) l.c (far_of origin.x l.d) (far_of origin.y l.e))) page.old }
{
    let a = far(origin.x, l.a);
    let b = far(origin.y, l.b);
    let d = far(origin.x, l.d);
    let e = far(origin.y, l.e);
    slanted_lines::ink_line(page, l.ink, size.width, size.length, a, b, l.c, d, e);
}

// One byte more than a legal picture has, so that what is too long is no picture here either.
fn draw_content(page: &mut [u8], s: Setting, x: usize, y: usize, i: usize)
    ensures { page.new ≡ drawn Black (cut s.entry.size.width s.entry.size.length (pictured (content s.entry.store.now s.entry.links.now s.entry.directory.now i) x y)) page.old }
{
    let mut buffer = [0u8; 32769];
    let n = contents::copy_out(s.store, s.links, s.directory, i, &mut buffer);
    picture::draw(page, s.size.width, s.size.length, x, y, front(&buffer, n));
}

fn draw_picture(page: &mut [u8], s: Setting, origin: Origin, line: &[u8], p: Picture)
    ensures { page.new ≡ drawn Black (cut s.entry.size.width s.entry.size.length (pictured (bytes_at s.entry.store.now s.entry.links.now s.entry.directory.now (titled_at s.entry.directory.now true (packed_of line.now p.at p.length))) (far_of origin.x p.a) (far_of origin.y p.b))) page.old }
{
    let x = far(origin.x, p.a);
    let y = far(origin.y, p.b);
    let found = finding::find(s.directory, true, parts::packed(line, p.at, p.length));
    match found {
        Some(i) => draw_content(page, s, x, y, i),
        None => picture::draw(page, s.size.width, s.size.length, x, y, front(line, 0)),
    }
}

// Draws an item of a line, from the origin, cut at width and length.
pub fn draw_item<'a>(
    page: &mut [u8],
    s: Setting<'a>,
    d: Declared,
    origin: Origin,
    line: &'a [u8],
    item: Item,
)
    ensures { page.new ≡ draws_item (setting s.entry.font.now s.entry.store.now s.entry.links.now s.entry.directory.now s.entry.values.now s.entry.counters s.entry.clock s.entry.size.width s.entry.size.length) d origin.x origin.y line.now item page.old }
{
    match item {
        Item::Origin(_) => {}
        Item::Variable(_) => {}
        Item::Counter(_) => {}
        Item::Text(t) => draw_text(page, s, d, origin, line, t),
        Item::Bars(b) => draw_bars(page, s, d, origin, line, b),
        Item::Box(r) => draw_box(page, s.size, origin, r),
        Item::Frame(f) => draw_frame(page, s.size, origin, f),
        Item::Slant(l) => draw_slant(page, s.size, origin, l),
        Item::Picture(p) => draw_picture(page, s, origin, line, p),
        Item::Format(_) => {}
    }
}
