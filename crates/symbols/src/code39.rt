// Code 39, ISO/IEC 16388: start, data and stop, with gaps between the characters.
ghost use Rattle.std.specs.Prelude.{◌≡◌, ◌-◌, ◌≤◌, length, get_or};
ghost use Rattle.std.proofs.lemmas.List.Edits.{sets};
ghost use Rattle.symbols.specs.Tables.{rows39};
ghost use Rattle.code128.specs.Widths.{each};
ghost use Rattle.symbols.specs.Elements.{above_space, spaced, elements39};
ghost use Rattle.symbols.specs.Laid.{most_elements, Put};
ghost use Rattle.kinds.specs.Fit.{most_data};

use crate::row::{put, row_in, wide};
use code128::above;

// The characters by byte from 32: nine elements, 1 narrow and 2 wide.
const W39: [u32; 59] = [
    122111211, 0, 0, 0, 121212111, 111212121, 0, 0, 0, 0, 121121211, 121112121, 0, 121111212,
    221111211, 121211121, 111221211, 211211112, 112211112, 212211111, 111221112, 211221111,
    112221111, 111211212, 211211211, 112211211, 0, 0, 0, 0, 0, 0, 0, 211112112, 112112112,
    212112111, 111122112, 211122111, 112122111, 111112212, 211112211, 112112211, 111122211,
    211111122, 112111122, 212111121, 111121122, 211121121, 112121121, 111111222, 211111221,
    112111221, 111121221, 221111112, 122111112, 222111111, 121121112, 221121111, 122121111,
];

fn row(b: u8) -> u32
    ensures { result ≡ get_or rows39 (above_space b) 0 }
{
    row_in(&W39, above(b, b' '))
}

fn body(s: &[u8], out: &mut [u8])
    requires { length s.now ≤ most_data }
    ensures { out.new ≡ sets out.old 10 (each spaced s.now) }
{
    for (i, b) in s.iter().enumerate() {
        put(out, 10 * i + 10, wide(row(*b)) * 10 + 1, 10);
    }
}

// Asked for by `fill` of the crate alone, whose data is fit: at most 128 bytes.
pub(crate) fn fill(s: &[u8], out: &mut [u8]) -> usize
    requires { length s.now ≤ most_data }
    ensures { (Put (elements39 s.now) 0 out.old out.new result) × (result ≤ most_elements) }
{
    let start = put(out, 0, wide(row(b'*')) * 10 + 1, 10);
    body(s, out);
    put(out, start + 10 * s.len(), wide(row(b'*')), 9)
}
