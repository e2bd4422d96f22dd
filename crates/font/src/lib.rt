// Fonts. Paper 01 lends a font as fields of tag, length and content: the size of a cell, a glyph for each code that has one, an end.
// This crate judges any bytes (`is_legal` answers true exactly where the definition `legal` of specs/Rules.antt holds) and finds the rows of a code
// (`rows_of`), both in one pass over the fields. A byte past the end reads as 0, so that any bytes get an answer. What `legal` takes is exactly what
// can be written from a cell's size and glyphs that keep the rules (specs/Written.antt, proofs/Writing.antt). A text is drawn by `text`.
#![tactic(auto)]

ghost use Rattle.std.specs.Prelude.{◌≡◌, cond, ◌+◌, ◌-◌, ◌*◌, ◌/◌, ◌^◌, ◌<◌, eqb, length, get_or, set, take, drop};
ghost use Rattle.font.specs.Rules.{size_at, code_at, next_field, cell_width, cell_height, headed, row_bytes, spare_bits};
ghost use Rattle.font.specs.Rules.{row_clean, rows_clean, is_glyph, sized, coded, glyph, ended, fields_from, legal, Places};

use ground::{back, byte_at, front};

fn size_at(font: &[u8], at: usize) -> usize
    requires { at < 2 ^ 32 }
    ensures { (result ≡ size_at font.now at) × (result < 65536) }
{
    byte_at(font, at + 1) + byte_at(font, at + 2) * 256
}

fn code_at(font: &[u8], at: usize) -> usize
    requires { at < 2 ^ 32 }
    ensures { (result ≡ code_at font.now at) × (result < 256) }
{
    byte_at(font, at + 3)
}

fn next_field(font: &[u8], at: usize) -> usize
    requires { at < 2 ^ 32 }
    ensures { (result ≡ next_field font.now at) × (result < at + 65539) }
{
    at + 3 + size_at(font, at)
}

pub fn cell_width(font: &[u8]) -> usize
    ensures { (result ≡ cell_width font.now) × (result < 256) }
{
    byte_at(font, 3)
}

pub fn cell_height(font: &[u8]) -> usize
    ensures { (result ≡ cell_height font.now) × (result < 256) }
{
    byte_at(font, 4)
}

pub fn row_bytes(font: &[u8]) -> usize
    ensures { (result ≡ row_bytes font.now) × (result < 256) }
{
    (cell_width(font) + 7) / 8
}

#[tactic(auto, unfolding(crate::specs::Rules::headed))]
fn headed_ok(font: &[u8]) -> bool
    ensures { result ≡ headed font.now }
{
    let width = cell_width(font);
    let height = cell_height(font);
    byte_at(font, 0) == 1
        && size_at(font, 0) == 2
        && 1 <= width
        && width <= 32
        && 1 <= height
        && height <= 64
}

// The spare bits of a row's last byte, all set: worked out once for all rows, so that no row costs a division.
fn spare_mask(font: &[u8]) -> usize
    ensures { result ≡ 2 ^ spare_bits font.now - 1 }
{
    (1usize << (row_bytes(font) * 8 - cell_width(font))) - 1
}

fn row_clean(font: &[u8], bytes: usize, mask: usize, at: usize) -> bool
    requires { (bytes ≡ row_bytes font.now) × (bytes < 256) × (mask ≡ 2 ^ spare_bits font.now - 1) × (0 < at) × (at < 2 ^ 32) }
    ensures { result ≡ row_clean font.now at }
{
    byte_at(font, at + bytes - 1) & mask == 0
}

// Whether a cell's height of rows from a place on have their spare bits zero.
fn rows_clean(font: &[u8], at: usize) -> bool
    requires { (0 < at) × (at < 2 ^ 31) }
    ensures { result ≡ rows_clean font.now (cell_height font.now) at }
{
    let bytes = row_bytes(font);
    let mask = spare_mask(font);
    let mut row = at;
    for _i in 0..cell_height(font) {
        if !row_clean(font, bytes, mask, row) {
            return false;
        }
        row += bytes;
    }
    true
}

fn is_glyph(font: &[u8], at: usize) -> bool
    ensures { result ≡ is_glyph font.now at }
{
    byte_at(font, at) == 2
}

fn sized_ok(font: &[u8], at: usize) -> bool
    requires { at < 2 ^ 30 }
    ensures { result ≡ sized font.now at }
{
    size_at(font, at) == 1 + cell_height(font) * row_bytes(font)
}

fn coded_ok(font: &[u8], last: usize, at: usize) -> bool
    requires { at < 2 ^ 30 }
    ensures { result ≡ coded font.now last at }
{
    let code = code_at(font, at);
    32 <= code && code <= 126 && last < code
}

#[tactic(auto, unfolding(crate::specs::Rules::glyph))]
fn glyph_ok(font: &[u8], last: usize, at: usize) -> bool
    requires { at < 2 ^ 30 }
    ensures { result ≡ glyph font.now last at }
{
    is_glyph(font, at) && sized_ok(font, at) && coded_ok(font, last, at) && rows_clean(font, at + 4)
}

fn ended_ok(font: &[u8], at: usize) -> bool
    requires { at < 2 ^ 31 }
    ensures { result ≡ ended font.now at }
{
    size_at(font, at) == 0 && at + 3 == font.len()
}

// Whether the fields after the first are glyphs and the last field.
fn fields_ok(font: &[u8]) -> bool
    ensures { result ≡ fields_from font.now 96 31 5 }
{
    let mut last: usize = 31;
    let mut at: usize = 5;
    for _i in 0..96usize {
        if byte_at(font, at) == 255 {
            return ended_ok(font, at);
        }
        if !glyph_ok(font, last, at) {
            return false;
        }
        last = code_at(font, at);
        at = next_field(font, at);
    }
    false
}

#[tactic(auto, unfolding(crate::specs::Rules::legal))]
pub fn is_legal(font: &[u8]) -> bool
    ensures { result ≡ legal font.now }
{
    headed_ok(font) && fields_ok(font)
}

// Notes where the rows of a code stand. The first field that has the code counts.
fn note(places: &mut [usize], code: usize, at: usize)
    requires { code < length places.old }
    ensures { places.new ≡ cond (eqb (get_or places.old code 0) 0) (set places.old code at) places.old }
{
    if places[code] == 0 {
        places[code] = at;
    }
}

// Finds where the rows of each code stand. One pass serves all bytes of a text.
fn find_places(font: &[u8], places: &mut [usize])
    requires { Places font.now places.old 95 5 }
    ensures { Places font.now places.new 0 0 }
{
    let mut at: usize = 5;
    for _i in 0..95usize {
        if !is_glyph(font, at) {
            return;
        }
        note(places, code_at(font, at), at + 4);
        at = next_field(font, at);
    }
}

// Where the rows of each code stand, by code: 0 where a code has none.
pub fn places(font: &[u8]) -> [usize; 256]
    ensures { Places font.now result 0 0 }
{
    let mut found = [0usize; 256];
    find_places(font, &mut found);
    found
}

// A place that was found, and the end where none was.
fn found(at: usize, end: usize) -> usize
    ensures { result ≡ cond (eqb at 0) end at }
{
    if at == 0 { end } else { at }
}

// The rows from a place that was found on.
pub fn rows_at(font: &[u8], at: usize) -> &[u8]
    ensures { result.now ≡ take (cell_height font.now * row_bytes font.now) (drop (cond (eqb at 0) (length font.now) at) font.now) }
{
    let rows = cell_height(font) * row_bytes(font);
    front(back(font, found(at, font.len())), rows)
}
