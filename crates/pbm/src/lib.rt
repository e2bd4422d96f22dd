// A page as a picture file: PBM, the binary kind, which Netpbm, ImageMagick, CUPS and viewers read.
//
// The file is `P4`, the width and the length in decimal, and the rows, each of whole bytes, highest bit first, 1 black: a page is already such a raster,
// cut here to the label's width and length. "Spare bits zero" is made true by the writer, so that it rests on nothing that a caller promises.
// `picture` writes `pbm_of` (specs/Pbm.antt) of any page, of any width and length, as far as there is room.
#![tactic(auto)]

ghost use Rattle.std.specs.Prelude.{◌≡◌, [], ◌∷◌, ◌+◌, ◌-◌, ◌*◌, ◌≤◌, ◌<◌, length};
ghost use Rattle.writing.specs.Writing.{Wrote};
ghost use Rattle.pbm.specs.Pbm.{row_bytes, cut, byte_at, row_from, rows_from, head_of, pbm_of};

use ground::{byte, less};
use sentences::{put, put_numbered};

// The bytes of a row.
fn row_bytes(width: u16) -> usize
    ensures { (result ≡ row_bytes width) × (result < 8193) }
{
    (width as usize + 7) / 8
}

// The first k of a byte's eight dots, the others white.
fn cut(k: usize, b: u8) -> u8
    ensures { result ≡ cut k b }
{
    match k {
        0 => 0,
        1 => b / 128 * 128,
        2 => b / 64 * 64,
        3 => b / 32 * 32,
        4 => b / 16 * 16,
        5 => b / 8 * 8,
        6 => b / 4 * 4,
        7 => b / 2 * 2,
        _ => b,
    }
}

// Byte j of the row that starts at a byte of the page.
fn byte_at(page: &[u8], width: u16, from: usize, j: usize) -> u8
    requires { (from < 4980661) × (j < 8193) }
    ensures { result ≡ byte_at page.now width from j }
{
    cut(less(width as usize, 8 * j), byte(page, from + j))
}

fn put_byte(page: &[u8], width: u16, from: usize, j: usize, out: &mut [u8], at: usize) -> usize
    requires { (from < 4980661) × (j < 8193) }
    ensures { Wrote out.old at (byte_at page.now width from j ∷ []) result out.new }
{
    let b = [byte_at(page, width, from, j)];
    put(out, at, &b)
}

fn put_row(page: &[u8], width: u16, from: usize, out: &mut [u8], at: usize) -> usize
    requires { (from < 4980661) × (at ≤ length out.old) }
    ensures { Wrote out.old at (row_from page.now width from 0 (row_bytes width)) result out.new }
{
    let n = row_bytes(width);
    let mut place = at;
    for j in 0..n {
        place = put_byte(page, width, from, j, out, place);
    }
    place
}

fn put_rows(page: &[u8], width: u16, rows: u16, out: &mut [u8], at: usize) -> usize
    requires { at ≤ length out.old }
    ensures { Wrote out.old at (rows_from page.now width 0 rows) result out.new }
{
    let n = rows as usize;
    let mut place = at;
    for y in 0..n {
        place = put_row(page, width, 76 * y, out, place);
    }
    place
}

// `P4`, width and length, each ended.
fn put_head(width: u16, rows: u16, out: &mut [u8]) -> usize
    ensures { Wrote out.old 0 (head_of width rows) result out.new }
{
    let across = put_numbered(out, 0, b"P4\n", width as usize);
    let down = put_numbered(out, across, b" ", rows as usize);
    put(out, down, b"\n")
}

// The picture of a page, at the front of a buffer; how many bytes it has.
pub fn picture(page: &[u8], width: u16, rows: u16, out: &mut [u8]) -> usize
    ensures { Wrote out.old 0 (pbm_of page.now width rows) result out.new }
{
    let place = put_head(width, rows, out);
    put_rows(page, width, rows, out, place)
}
