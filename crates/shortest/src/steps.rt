// The symbols one after the other, by the marks of the plan.
ghost use Rattle.std.specs.Prelude.{◌≡◌, true, ◌+◌, ◌≤◌, ◌<◌, length, drop};
ghost use Rattle.std.proofs.lemmas.List.Edits.{sets};
ghost use Rattle.shortest.specs.Writing.{byte_of, pair_of};
ghost use Rattle.shortest.specs.Found as Found;
ghost use Rattle.shortest.specs.Found.{best, in_set};
ghost use Rattle.shortest.specs.Lengths.{mark_of, Planned, Next};

use crate::Set;
use crate::plan::two;
use ground::{byte, put_byte};

const TO_C: u8 = 99;

const TO_B: u8 = 100;

// A symbol, and the place and the set after it.
#[derive(Clone, Copy)]
pub struct Step {
    pub symbol: u8,
    pub at: usize,
    pub set: Set,
}

fn byte_of(a: u8) -> u8
    ensures { result ≡ byte_of a }
{
    a.saturating_sub(b' ')
}

fn pair_of(a: u8, b: u8) -> u8
    requires { Found.two a b ≡ true }
    ensures { result ≡ pair_of a b }
{
    10 * (a - b'0') + (b - b'0')
}

fn next_in_b(s: &[u8], i: usize, mark: u8) -> Step
    requires { (i < length s.now) × (mark ≡ mark_of (drop i s.now)) }
    ensures { Next s.now i Set.B result }
{
    if mark == 0 {
        return Step {
            symbol: byte_of(s[i]),
            at: i + 1,
            set: Set::B,
        };
    }
    Step {
        symbol: TO_C,
        at: i,
        set: Set::C,
    }
}

fn next_in_c(s: &[u8], i: usize) -> Step
    requires { i < length s.now }
    ensures { Next s.now i Set.C result }
{
    let a = s[i];
    let b = byte(s, i + 1);
    if two(a, b) {
        return Step {
            symbol: pair_of(a, b),
            at: i + 2,
            set: Set::C,
        };
    }
    Step {
        symbol: TO_B,
        at: i,
        set: Set::B,
    }
}

fn next(s: &[u8], i: usize, set: Set, mark: u8) -> Step
    requires { (i < length s.now) × (mark ≡ mark_of (drop i s.now)) }
    ensures { Next s.now i set result }
{
    match set {
        Set::B => next_in_b(s, i, mark),
        Set::C => next_in_c(s, i),
    }
}

// Writes the data from a set on, behind the start symbol, and answers the place after it.
pub(crate) fn behind_start(s: &[u8], marks: &[u8], set: Set, out: &mut [u8]) -> usize
    requires { (length s.now ≤ 128) × (length s.now ≤ length marks.now) × (Planned s.now 0 marks.now) }
    ensures { (result ≡ 1 + length (in_set set (best s.now))) × (out.new ≡ sets out.old 1 (in_set set (best s.now))) }
{
    let mut here = set;
    let mut k = 1;
    let mut i = 0;
    // A while: a step goes on by two bytes, by one, or by none where it changes the set.
    while i < s.len() {
        let t = next(s, i, here, marks[i]);
        put_byte(out, k, t.symbol);
        k += 1;
        i = t.at;
        here = t.set;
    }
    k
}
