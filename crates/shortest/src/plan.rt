// Where set B is left for set C: from the last byte back, with the lengths of the best writings alone.
ghost use Rattle.std.specs.Prelude.{◌≡◌, cond, ◌≤◌, length};
ghost use Rattle.shortest.specs.Found as Found;
ghost use Rattle.shortest.specs.Found.{best};
ghost use Rattle.shortest.specs.Lengths as Told;
ghost use Rattle.shortest.specs.Lengths.{Measured, lengthened, Planned};

use ground::byte;

// The lengths of the best writings of some data: in set B, in set C, and in set C without its first byte.
#[derive(Clone, Copy)]
pub struct Lengths {
    pub b: usize,
    pub c: usize,
    pub later: usize,
}

pub(crate) fn two(a: u8, b: u8) -> bool
    ensures { result ≡ Found.two a b }
{
    kinds::is_between(b'0', b'9', a) && kinds::is_between(b'0', b'9', b)
}

// Whether set B is left before a and b.
fn leaves(a: u8, b: u8, m: Lengths) -> bool
    requires { (m.b ≤ 1000) × (m.later ≤ 1000) }
    ensures { result ≡ Told.leaves a b m }
{
    two(a, b) && m.later + 1 < m.b
}

// The lengths with a byte a, and b after it or 0, in front.
fn lengthen(a: u8, b: u8, m: Lengths) -> Lengths
    requires { (m.b ≤ 1000) × (m.later ≤ 1000) }
    ensures { result ≡ lengthened a b m }
{
    if leaves(a, b, m) {
        return Lengths {
            b: m.later + 2,
            c: m.later + 1,
            later: m.c,
        };
    }
    if two(a, b) {
        return Lengths {
            b: m.b + 1,
            c: m.later + 1,
            later: m.c,
        };
    }
    Lengths {
        b: m.b + 1,
        c: m.b + 2,
        later: m.c,
    }
}

fn mark(left: bool) -> u8
    ensures { result ≡ cond left 1 0 }
{
    u8::from(left)
}

// Asked for by `start` of the crate alone, whose data is at most 128 bytes.
pub(crate) fn plan(s: &[u8], marks: &mut [u8]) -> Lengths
    requires { (length s.now ≤ 128) × (length s.now ≤ length marks.old) }
    ensures { (Measured (best s.now) result) × (Planned s.now 0 marks.new) }
{
    let mut m = Lengths {
        b: 0,
        c: 0,
        later: 0,
    };
    for i in (0..s.len()).rev() {
        let a = s[i];
        let b = byte(s, i + 1);
        marks[i] = mark(leaves(a, b, m));
        m = lengthen(a, b, m);
    }
    m
}
