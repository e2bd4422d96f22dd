// What may be entered for a variable, how it is padded, and when a stored value fits its declaration.
//
// "L, R, C values are padded with spaces to m (C puts the smaller half left); N is unpadded; Z is 1 to m digits, zeros put in front. Others take 0 to
// m bytes, each 32 to 126 and no quote." A justification is one of these five letters, as a byte; any other byte counts as L. Each function gives what
// the definition (specs/Padding.antt) says of any byte, length and text, and a text that may be entered, once padded, fits (proofs/Padded.antt). Where
// a padded value is kept stands in crate `stored_values`.
#![tactic(auto)]

ghost use Rattle.std.specs.Prelude.{◌≡◌};
ghost use Rattle.kinds.specs.Bytes.{is_digit, all_in};
ghost use Rattle.padding.specs.Padding.{legal, enters, fits, filler, before, behind};

use ground::{both, either, less};

// ---- what may be entered

fn is_legal(b: u8) -> bool
    ensures { result ≡ legal b }
{
    either(kinds::is_between(32, 33, b), kinds::is_between(35, 126, b))
}

fn all_legal(text: &[u8]) -> bool
    ensures { result ≡ all_in legal text.now }
{
    for b in text {
        if !is_legal(*b) {
            return false;
        }
    }
    true
}

fn all_digits(text: &[u8]) -> bool
    ensures { result ≡ all_in is_digit text.now }
{
    kinds::all_in(kinds::Kind::Interleaved, text)
}

// Whether a text may be entered for a variable of a justification and a length.
pub fn may_enter(side: u8, m: usize, text: &[u8]) -> bool
    ensures { result ≡ enters side m text.now }
{
    if side == b'Z' {
        if text.len() < 1 {
            return false;
        }
        return both(text.len() <= m, all_digits(text));
    }
    both(text.len() <= m, all_legal(text))
}

// Whether a stored value fits.
pub fn value_fits(side: u8, m: usize, v: &[u8]) -> bool
    ensures { result ≡ fits side m v.now }
{
    if side == b'N' {
        return both(v.len() <= m, all_legal(v));
    }
    if side == b'Z' {
        return both(v.len() == m, all_digits(v));
    }
    both(v.len() == m, all_legal(v))
}

// ---- padding

// The byte that fills the places left over.
pub fn filler_of(side: u8) -> u8
    ensures { result ≡ filler side }
{
    if side == b'Z' { b'0' } else { b' ' }
}

// Of so many places left over, those in front.
pub fn in_front(side: u8, gap: usize) -> usize
    ensures { result ≡ before side gap }
{
    match side {
        b'R' => gap,
        b'Z' => gap,
        b'C' => gap / 2,
        _ => 0,
    }
}

// Those behind.
pub fn at_back(side: u8, gap: usize) -> usize
    ensures { result ≡ behind side gap }
{
    if side == b'N' {
        return 0;
    }
    less(gap, in_front(side, gap))
}
