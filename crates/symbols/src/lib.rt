// Symbols: data to the widths of a symbol's elements.
//
// Paper 01 has four types of bars: Code 39 (3), Interleaved 2 of 5 (2), EAN-13 (E30) and Code 128 (1), after ISO/IEC 16388,
// 16390, 15420 and 15417. `elements` writes the widths of a symbol's elements as specs/Elements.antt makes them from the tables, for any bytes; what is
// unfit has none. `check_digit` is the check digit of any digits, which EAN-13 has behind its twelve. Which bytes are fit stands in crate `kinds`, the
// table of Code 128 and its check symbol in `code128`, which of its symbols data is written with in `shortest`, bars drawn in `bars`.
// The modules are private. Where one of their functions asks for room in a list or for fit data, `elements` below meets it.
#![tactic(auto)]

mod code39;
mod ean;
mod interleaved;
mod row;
mod sets_b_and_c;

ghost use Rattle.std.specs.Prelude.{◌≡◌, true, ◌≤◌};
ghost use Rattle.kinds.specs.Fit.{fit};
ghost use Rattle.symbols.specs.Elements as Elements;
ghost use Rattle.symbols.specs.Elements.{elements_in};
ghost use Rattle.symbols.specs.Laid.{most_elements, Put};

pub use ean::check_digit;
use kinds::Kind;

// Code 39 has the most elements: 128 bytes, start and stop of nine each, and gaps between them.
pub const MOST_ELEMENTS: usize = 1299;

fn fill(kind: Kind, bytes: &[u8], out: &mut [u8]) -> usize
    requires { fit kind bytes.now ≡ true }
    ensures { (Put (elements_in kind bytes.now) 0 out.old out.new result) × (result ≤ most_elements) }
{
    match kind {
        Kind::Shown => 0,
        Kind::Code39 => code39::fill(bytes, out),
        Kind::Interleaved => interleaved::fill(bytes, out),
        Kind::Ean13 => ean::fill(bytes, out),
        Kind::Code128 => sets_b_and_c::fill(bytes, out),
    }
}

// Writes the widths of the elements from the start of a list, as far as it reaches, and answers how many elements there are.
pub fn elements(kind: Kind, bytes: &[u8], out: &mut [u8]) -> usize
    ensures { (Put (Elements.elements kind bytes.now) 0 out.old out.new result) × (result ≤ most_elements) }
{
    if kinds::fits(kind, bytes) {
        return fill(kind, bytes, out);
    }
    0
}
