// Input of any length through a window: the bytes that are not read yet move to its front, and what follows them is free for more.
//
// The longest command is a GM with its line of 255 bytes, its LF and 32,768 bytes; a window of 33,024 bytes or more has room for it.
#![tactic(auto)]

ghost use Rattle.std.specs.Prelude.{◌≡◌, length, take, drop};
ghost use Rattle.std.proofs.lemmas.List.Edits.{sets};
ghost use Rattle.classes.specs.declared.Class.TheVariants.{Inside};
ghost use Rattle.classes.specs.Bytes.{run};

use classes::Class;
use ground::{back, front, least, less};

// The bytes from one place of the window to another.
pub fn unread<'a>(window: &'a [u8], start: usize, end: usize) -> &'a [u8]
    ensures { result.now ≡ drop start (take end window.now) }
{
    back(front(window, end), start)
}

// Those bytes moved to the front of the window; how many they are.
pub fn shift(window: &mut [u8], start: usize, end: usize) -> usize
    ensures { (result ≡ length (drop start (take end window.old))) × (window.new ≡ sets window.old 0 (drop start (take end window.old))) }
{
    let n = less(least(end, window.len()), start);
    for i in 0..n {
        window[i] = window[start + i];
    }
    n
}

// How many bytes stand before the first LF, or all where there is none.
pub fn line_length(input: &[u8]) -> usize
    ensures { result ≡ run Inside input.now }
{
    classes::run_end(input, Class::Inside, 0)
}
