// Two small fonts at work: text in the four turns, at three scales, in both modes, cut at each edge, with a code that no glyph has, and with a
// font that breaks its rules. Each page is written as rows of signs, a hash for a black dot.
#![tactic(auto)]

ghost use Rattle.std.specs.Prelude.{◌<◌, ◌≤◌};

use std::io;
use text::{Corner, Scale, Size};

// Cells of 5 by 6 dots, with an F and an R.
const NARROW: [u8; 28] =
    *b"\x01\x02\x00\x05\x06\x02\x07\x00F\xf8\x80\xe0\x80\x80\x00\x02\x07\x00R\xf0\x88\xf0\xa0\x90\x88\xff\x00\x00";

// Cells of 11 by 3 dots, with an A: each row has two bytes, and five spare bits.
const WIDE: [u8; 18] = *b"\x01\x02\x00\x0b\x03\x02\x07\x00A\xff\xe0\x80\x40\xc0\x20\xff\x00\x00";

// What stands for the dot x of row y.
fn sign_of(page: &[u8], x: usize, y: usize) -> u8
    requires { (x < 608) × (y < 4000) }
{
    let at = y * 76 + x / 8;
    if page.len() <= at {
        return b' ';
    }
    if (page[at] >> (7 - x % 8)) % 2 == 1 {
        b'#'
    } else {
        b'.'
    }
}

// Writes 64 dots of row y from column `from` on.
fn show_row(out: &impl Print, page: &[u8], from: usize, y: usize) -> io::Result<()>
    requires { (from < 545) × (y < 4000) }
{
    let mut line = [b'\n'; 65];
    for x in 0..64usize {
        line[x] = sign_of(page, from + x, y);
    }
    out.write_all(&line)
}

// Writes the first rows of a page, and an empty line.
fn show(out: &impl Print, page: &[u8], from: usize, rows: usize) -> io::Result<()>
    requires { (from < 545) × (rows ≤ 4000) }
{
    for y in 0..rows {
        show_row(out, page, from, y)?;
    }
    out.write_all(b"\n")
}

// The corner (x, y) of a box that is turned by r quarters, on a label of width by length.
fn corner(width: usize, length: usize, x: usize, y: usize, r: usize) -> Corner {
    let size = Size { width, length };
    Corner { size, r, x, y }
}

// Each dot of a cell as it is.
const ONE: Scale = Scale { h: 1, v: 1 };

// The four turns at one scale in one mode, beside each other from the columns given on.
fn turns(
    out: &impl Print,
    scale: Scale,
    reverse: bool,
    columns: [usize; 4],
    rows: usize,
) -> io::Result<()>
    requires { rows ≤ 4000 }
{
    let mut page = [0u8; 1672];
    for r in 0..4usize {
        let at = corner(608, 22, columns[r], 1, r);
        text::draw(&mut page, at, scale, reverse, &NARROW, b"FR");
    }
    show(out, &page, 0, rows)
}

fn scales(out: &impl Print, reverse: bool) -> io::Result<()> {
    turns(out, ONE, reverse, [1, 13, 21, 33], 12)?;
    turns(out, Scale { h: 2, v: 1 }, reverse, [1, 23, 31, 53], 22)?;
    turns(out, Scale { h: 1, v: 3 }, reverse, [1, 13, 33, 45], 20)
}

// Cut at a width of 13 and a length of 7, in each turn: the text stands 4 to the right and 3 down.
fn cut_at_label(out: &impl Print, r: usize, reverse: bool) -> io::Result<()> {
    let mut page = [0u8; 760];
    let at = corner(13, 7, 4, 3, r);
    text::draw(&mut page, at, ONE, reverse, &NARROW, b"FR");
    show(out, &page, 0, 10)
}

// Cut at the page's own edges: column 608 and the last row.
fn cut_at_page(out: &impl Print, reverse: bool) -> io::Result<()> {
    let mut page = [0u8; 608];
    let right = corner(9999, 9999, 602, 1, 0);
    text::draw(&mut page, right, ONE, reverse, &NARROW, b"FR");
    let below = corner(9999, 9999, 560, 4, 2);
    text::draw(&mut page, below, ONE, reverse, &NARROW, b"FR");
    show(out, &page, 544, 8)
}

// A code that no glyph has is blank; rows of two bytes; no bytes draw nothing.
fn blanks(out: &impl Print, reverse: bool) -> io::Result<()> {
    let mut page = [0u8; 760];
    let first = corner(608, 10, 1, 1, 0);
    text::draw(&mut page, first, ONE, reverse, &NARROW, b"F?R");
    let second = corner(608, 10, 18, 1, 0);
    text::draw(
        &mut page,
        second,
        Scale { h: 1, v: 2 },
        reverse,
        &WIDE,
        b"AA",
    );
    let third = corner(608, 10, 50, 1, 0);
    text::draw(&mut page, third, ONE, reverse, &NARROW, b"");
    show(out, &page, 0, 9)
}

// Draws with a font that is judged first.
fn draw_judged(page: &mut [u8], bytes: &[u8]) {
    if font::is_legal(bytes) {
        let at = corner(608, 2, 0, 0, 0);
        text::draw(page, at, ONE, true, bytes, b"FR");
    }
}

// A font whose first glyph has a spare bit set is refused, and nothing is drawn with it.
fn broken(out: &impl Print) -> io::Result<()> {
    let mut page = [0u8; 152];
    let mut bytes = NARROW;
    bytes[9] = 0xf9;
    draw_judged(&mut page, &bytes);
    show(out, &page, 0, 2)
}

fn main(rt: HostRuntime) -> io::Result<()> {
    scales(&rt, false)?;
    scales(&rt, true)?;
    cut_at_label(&rt, 0, false)?;
    cut_at_label(&rt, 1, false)?;
    cut_at_label(&rt, 2, true)?;
    cut_at_label(&rt, 3, true)?;
    cut_at_page(&rt, false)?;
    cut_at_page(&rt, true)?;
    blanks(&rt, false)?;
    blanks(&rt, true)?;
    broken(&rt)
}
