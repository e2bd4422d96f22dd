// Names of files: the name of a picture, and the folder of a path.
//
// A label's picture is called by a prefix and the number of the label, of four digits or more, so that a folder lists the labels in their order
// (specs/Names.antt). The length of a path up to its last `/` is the name of its folder.
#![tactic(auto)]

ghost use Rattle.std.specs.Prelude.{◌≡◌};
ghost use Rattle.writing.specs.Writing.{Wrote};
ghost use Rattle.file_names.specs.Names.{zeros_of, name_of, after_slash, last_slash};

use sentences::put;
use writing::put_decimal;

// Zeros that make four digits of a number.
#[tactic(auto, unfolding(crate::specs::Names::zeros_of))]
fn put_zeros(n: usize, out: &mut [u8], at: usize) -> usize
    ensures { Wrote out.old at (zeros_of n) result out.new }
{
    if n < 10 {
        return put(out, at, b"000");
    }
    if n < 100 {
        return put(out, at, b"00");
    }
    if n < 1000 {
        return put(out, at, b"0");
    }
    put(out, at, b"")
}

// `PREFIX-0001.pbm`
pub fn name(prefix: &[u8], n: usize, out: &mut [u8]) -> usize
    ensures { Wrote out.old 0 (name_of prefix.now n) result out.new }
{
    let dash = put(out, 0, prefix);
    let zeros = put(out, dash, b"-");
    let digits = put_zeros(n, out, zeros);
    let dot = put_decimal(n, out, digits);
    put(out, dot, b".pbm")
}

// The place after a byte, if it is a `/`; else the place so far.
fn slash(b: u8, next: usize, best: usize) -> usize
    ensures { result ≡ after_slash b next best }
{
    if b == b'/' { next } else { best }
}

// The place after the last `/` of a path, 0 where there is none: so long is the name of its folder.
pub fn folder_length(path: &[u8]) -> usize
    ensures { result ≡ last_slash 0 0 path.now }
{
    let mut best: usize = 0;
    for (i, b) in path.iter().enumerate() {
        best = slash(*b, i + 1, best);
    }
    best
}
