// Interleaved 2 of 5, ISO/IEC 16390: start, digits two by two, stop.
ghost use Rattle.std.specs.Prelude.{◌≡◌, ◌-◌, ◌%◌, ◌≤◌, length, get_or};
ghost use Rattle.std.proofs.lemmas.List.Edits.{sets};
ghost use Rattle.symbols.specs.Elements.{digit_of, pairs, elements25};
ghost use Rattle.symbols.specs.Laid.{most_elements, Put, spread};
ghost use Rattle.kinds.specs.Fit.{most_data};

use crate::row::{put, row_in, wide};
use code128::above;

// The digits: five elements, 1 narrow and 2 wide, with a place left between them for those of another digit.
const W25: [u32; 10] = [
    101020201, 201010102, 102010102, 202010101, 101020102, 201020101, 102020101, 101010202,
    201010201, 102010201,
];

fn row(b: u8) -> u32
    ensures { result ≡ get_or spread (digit_of b) 0 }
{
    row_in(&W25, above(b, b'0'))
}

fn body(s: &[u8], out: &mut [u8])
    requires { length s.now ≤ most_data }
    ensures { out.new ≡ sets out.old 4 (pairs s.now) }
{
    for i in 0..s.len() / 2 {
        let first = wide(row(s[2 * i]));
        let second = wide(row(s[2 * i + 1]));
        put(out, 10 * i + 4, first * 10 + second, 10);
    }
}

// Asked for by `fill` of the crate alone, whose data is fit: an even number of digits, at most 128.
pub(crate) fn fill(s: &[u8], out: &mut [u8]) -> usize
    requires { (length s.now ≤ most_data) × (length s.now % 2 ≡ 0) }
    ensures { (Put (elements25 s.now) 0 out.old out.new result) × (result ≤ most_elements) }
{
    let start = put(out, 0, 1111, 4);
    body(s, out);
    put(out, start + 5 * s.len(), 211, 3)
}
