// Code 128 as short as it can be: the data of type 1 written with sets B and C.
//
// Paper 02, §9, asks for the writing of the data that has the fewest symbols, and among those for the one whose first differing symbol value is
// smaller. What a writing is, and which one is asked for, stands in specs/Writing.antt, over all writings. How ours is found stands in
// specs/Found.antt: from the last byte back, the best writing in each set of what is left. `write` gives it, in two passes over the data, and `ours-shortest`
// (proofs/Shortest.antt) says that it is the one asked for. Symbol table, check symbol and stop are `code128`'s, the widths of the whole are `symbols`'.
#![tactic(auto)]

mod plan;
mod steps;

ghost use Rattle.std.specs.Prelude.{◌≡◌, true, length};
ghost use Rattle.std.proofs.lemmas.List.Edits.{sets};
ghost use Rattle.kinds.specs.Fit.{fit};
ghost use Rattle.shortest.specs.Found.{best, started, our_writing};

use ground::put_byte;
use kinds::{Kind, MOST_DATA};

// The start symbol, and at most one symbol for each byte.
pub const MOST_SYMBOLS: usize = 129;

const START_B: u8 = 104;

const START_C: u8 = 105;

// The two sets of ISO/IEC 15417 that type 1 uses.
#[derive(Clone, Copy)]
pub enum Set {
    B,
    C,
}

// Asked for by `write` alone, whose data is fit.
fn start(s: &[u8], out: &mut [u8]) -> usize
    requires { fit Kind.Code128 s.now ≡ true }
    ensures { (result ≡ length (started (best s.now))) × (out.new ≡ sets out.old 0 (started (best s.now))) }
{
    let mut marks = [0u8; MOST_DATA];
    let m = plan::plan(s, &mut marks);
    if m.c < m.b {
        put_byte(out, 0, START_C);
        return steps::behind_start(s, &marks, Set::C, out);
    }
    put_byte(out, 0, START_B);
    steps::behind_start(s, &marks, Set::B, out)
}

// Writes the symbols of data from the start of a list, as far as it reaches, and answers how many there are.
pub fn write(s: &[u8], out: &mut [u8]) -> usize
    ensures { (result ≡ length (our_writing s.now)) × (out.new ≡ sets out.old 0 (our_writing s.now)) }
{
    if kinds::fits(Kind::Code128, s) {
        return start(s, out);
    }
    0
}
