// The letters of a command.
//
// A command starts with its letters; where the letters of several commands match, the longest count: VC is not V. `head_of` answers the row of the
// grammar that a line's letters name, by a decision over the first letter, then the second, and the third where LS stands in front of it.
#![tactic(auto)]

ghost use Rattle.std.specs.Prelude.{◌≡◌, [], ◌∷◌};
ghost use Rattle.heads.specs.Heads.{head_by, head_of, Behind, line_head, slant_head, letters_fault};

use grammar::row;
use ground::byte;

// The row of the grammar that a line's letters name, if they are a command's.
pub fn head_of(line: &[u8]) -> Option<usize>
    ensures { result ≡ head_of line.now }
{
    by_first(byte(line, 0), byte(line, 1), byte(line, 2))
}

// Where a line that no command's letters match is at fault: at its first byte, or at the LF where it ends within the letters of a command. No command has more
// than three letters.
pub fn letters_fault(line: &[u8]) -> usize
    ensures { result ≡ letters_fault line.now }
{
    if line.len() == 2 {
        return pair_fault(byte(line, 0), byte(line, 1));
    }
    if line.len() != 1 {
        return 0;
    }
    match byte(line, 0) {
        b'Z' => 1,
        b'L' => 1,
        b'G' => 1,
        b'F' => 1,
        b'V' => 1,
        b'?' => 1,
        b'T' => 1,
        _ => 0,
    }
}

// The same of a line of two bytes: LSE and LSW alone have a letter behind two.
fn pair_fault(a: u8, b: u8) -> usize
    ensures { result ≡ letters_fault (a ∷ b ∷ []) }
{
    if a != b'L' {
        return 0;
    }
    if b == b'S' { 2 } else { 0 }
}

fn by_first(a: u8, b: u8, c: u8) -> Option<usize>
    ensures { result ≡ head_by a b c }
{
    match a {
        b'Q' => Some(row::LENGTH),
        b'q' => Some(row::WIDTH),
        b'R' => Some(row::ORIGIN),
        b'Z' => turns(b),
        b'L' => lines(b, c),
        b'X' => Some(row::FRAME),
        b'A' => Some(row::TEXT),
        b'B' => Some(row::BARS),
        b'G' => pictures(b),
        b'F' => forms(b),
        b'V' => variables(b),
        b'C' => Some(row::COUNTER),
        b'?' => values(b),
        b'P' => Some(row::PRINT),
        b'N' => Some(row::WHITE),
        b'T' => clocks(b),
        _ => None,
    }
}

fn turns(b: u8) -> Option<usize>
    ensures { Behind "Z" b result }
{
    match b {
        b'T' => Some(row::ZT),
        b'B' => Some(row::ZB),
        _ => None,
    }
}

fn lines(b: u8, c: u8) -> Option<usize>
    ensures { result ≡ line_head b c }
{
    match b {
        b'O' => Some(row::LO),
        b'E' => Some(row::LE),
        b'W' => Some(row::LW),
        b'S' => slants(c),
        _ => None,
    }
}

fn slants(c: u8) -> Option<usize>
    ensures { result ≡ slant_head c }
{
    match c {
        b'E' => Some(row::LSE),
        b'W' => Some(row::LSW),
        _ => Some(row::LS),
    }
}

fn pictures(b: u8) -> Option<usize>
    ensures { Behind "G" b result }
{
    match b {
        b'G' => Some(row::GG),
        b'K' => Some(row::GK),
        b'I' => Some(row::GI),
        b'M' => Some(row::GM),
        _ => None,
    }
}

fn forms(b: u8) -> Option<usize>
    ensures { Behind "F" b result }
{
    match b {
        b'S' => Some(row::FS),
        b'E' => Some(row::FE),
        b'R' => Some(row::FR),
        b'K' => Some(row::FK),
        b'I' => Some(row::FI),
        b'P' => Some(row::FP),
        _ => None,
    }
}

fn variables(b: u8) -> Option<usize>
    ensures { Behind "V" b result }
{
    match b {
        b'C' => Some(row::VC),
        _ => Some(row::VARIABLE),
    }
}

fn clocks(b: u8) -> Option<usize>
    ensures { Behind "T" b result }
{
    match b {
        b'S' => Some(row::TS),
        b'D' => Some(row::TD),
        b'T' => Some(row::TT),
        _ => None,
    }
}

fn values(b: u8) -> Option<usize>
    ensures { Behind "?" b result }
{
    match b {
        b'V' => Some(row::SET_VARIABLE),
        b'C' => Some(row::SET_COUNTER),
        _ => None,
    }
}
