// Texts written one after the other into a buffer that someone lends.
//
// `put` writes a text from a place on, as far as there is room, and answers the place after it. Its contract is `Wrote`, as that of a number written in
// decimal (crate `normal`), so that a line put together from texts and numbers is proved by one law, `Wrote-then`.
#![tactic(auto)]

ghost use Rattle.std.specs.Prelude.{◌++◌};
ghost use Rattle.writing.specs.Writing.{Wrote};
ghost use Rattle.sentences.specs.Texts.{numbered};

use ground::least;
use writing::put_decimal;

// A text from a place on, as far as there is room; the place after it.
pub fn put(out: &mut [u8], at: usize, text: &[u8]) -> usize
    ensures { Wrote out.old at text.now result out.new }
{
    if out.len() < at {
        return out.len();
    }
    let n = least(text.len(), out.len() - at);
    ground::put(out, at, text);
    at + n
}

// Two texts, one after the other.
pub fn joined(a: &[u8], b: &[u8], out: &mut [u8]) -> usize
    ensures { Wrote out.old 0 (a.now ++ b.now) result out.new }
{
    let next = put(out, 0, a);
    put(out, next, b)
}

// A text, and after it a number in decimal.
pub fn put_numbered(out: &mut [u8], at: usize, text: &[u8], n: usize) -> usize
    ensures { Wrote out.old at (numbered text.now n) result out.new }
{
    let next = put(out, at, text);
    put_decimal(n, out, next)
}
