// The page of dots. Paper 01 lends a page and a background, 76 bytes a row, dot x in byte x/8, highest bit first, 1 black; the label's width and
// length cut whatever is drawn. This crate says what a page is and what it is to draw on one: `drawn ink shape page` of specs/Dots.antt is the page
// with the dots of a shape inked and all else as it was, for a page of any length. It has what every drawing stands on: the two functions that make
// and ink the dots of one byte, and the laws of pages, of shapes drawn in turn and of boxes.
// Boxes are drawn by `boxes`, frames by `frames`, bytes of dots by `eights`; whole pages are the business of `pages`, `outside` and `half_turn`.
#![tactic(auto)]

ghost use Rattle.std.specs.Prelude.{◌≡◌, cond};
ghost use Rattle.dots.specs.Dots.{within, bit_of, byte_of, inked};

// "76 bytes a row": so a row has 608 dots.
pub const BYTES_A_ROW: usize = 76;

pub const DOTS_A_ROW: usize = 608;

// What drawing does to a dot: makes it black, makes it white, or turns it over.
#[derive(Clone, Copy)]
pub enum Ink {
    Black,
    White,
    Inverted,
}

// The byte whose dots from lo up to, not including, hi are black.
pub fn span_mask(lo: usize, hi: usize) -> u8
    ensures { result ≡ byte_of (within lo hi) }
{
    let end = hi.min(8);
    let start = lo.min(end);
    ((255u32 >> start) - (255u32 >> end)) as u8
}

// The byte b with the dots of the mask m drawn in an ink.
pub fn ink_dots(ink: Ink, b: u8, m: u8) -> u8
    ensures { result ≡ byte_of (λ k. cond (bit_of m k) (inked ink (bit_of b k)) (bit_of b k)) }
{
    match ink {
        Ink::Black => b | m,
        Ink::White => (b | m) ^ m,
        Ink::Inverted => b ^ m,
    }
}
