// Classes of bytes, and how far a run of one class goes.
//
// Paper 01 says which bytes may stand where: digits in a number, "32 to 126" and no quote in a quoted text, no `*` in a name, certain letters for a mode and a
// justification. `in_class` decides it for one byte, and `run_end` answers the place after the bytes of a class that stand at a place of a line. Any
// line and any place is answered.
#![tactic(auto)]

ghost use Rattle.std.specs.Prelude.{◌≡◌, ◌+◌, drop};
ghost use Rattle.classes.specs.Bytes.{in_class, run};

// Digit: of a number. Quoted: of a quoted text. Inside: of a line. Named: of a name. Mode and Side: the letters of a mode, of a justification.
#[derive(Clone, Copy)]
pub enum Class {
    Digit,
    Quoted,
    Inside,
    Named,
    Mode,
    Side,
}

// Whether a byte is of a class. A quoted text asks for the quote first, so that the rest of its bytes are one range.
#[tactic(auto, unfolding(kinds::specs::Bytes::between))]
pub fn in_class(k: Class, b: u8) -> bool
    ensures { result ≡ in_class k b }
{
    match k {
        Class::Digit => matches!(b, b'0'..=b'9'),
        Class::Quoted => b != b'"' && matches!(b, b' '..=b'~'),
        Class::Inside => b != b'\n',
        Class::Named => matches!(b, b' '..=b'!' | b'#'..=b')' | b'+'..=b'~'),
        Class::Mode => matches!(b, b'N' | b'R'),
        Class::Side => matches!(b, b'L' | b'R' | b'C' | b'N' | b'Z'),
    }
}

// The place after the bytes of a class that stand at a place.
pub fn run_end(line: &[u8], k: Class, at: usize) -> usize
    ensures { result ≡ at + run k (drop at line.now) }
{
    for i in at..line.len() {
        if !in_class(k, line[i]) {
            return i;
        }
    }
    at.max(line.len())
}
