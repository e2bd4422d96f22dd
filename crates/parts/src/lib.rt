// Parts of the input and of a line.
//
// Paper 01: a call "hands back the unread rest as a part of that input". `first` and `rest` are the two parts that a place cuts a slice into, `inside` is
// a text between its quotes, and `packed` a name in capitals as a directory entry keeps it. Any place and any length is answered.
#![tactic(auto)]

ghost use Rattle.std.specs.Prelude.{◌≡◌, ◌+◌, ◌<◌, take, drop};
ghost use Rattle.parts.specs.Names.{capital, name_byte, packed_of};

// The first n bytes of the input, or what there is.
pub fn first<'a>(input: &'a [u8], n: usize) -> &'a [u8]
    ensures { result.now ≡ take n input.now }
{
    &input[..n.min(input.len())]
}

// The input after the n bytes that a call read; nothing past its end.
pub fn rest<'a>(input: &'a [u8], n: usize) -> &'a [u8]
    ensures { result.now ≡ drop n input.now }
{
    &input[n.min(input.len())..]
}

// A byte in capitals.
pub fn folded(b: u8) -> u8
    ensures { result ≡ capital b }
{
    b.to_ascii_uppercase()
}

fn name_byte(line: &[u8], at: usize, length: usize, i: usize) -> u8
    requires { i < 8 }
    ensures { result ≡ name_byte line.now at length i }
{
    if length <= i {
        return 0;
    }
    if line.len() <= at {
        return 0;
    }
    folded(ground::byte(line, at + 1 + i))
}

// The name of a length whose first quote stands at a place, as 8 zero-filled bytes.
pub fn packed(line: &[u8], at: usize, length: usize) -> [u8; 8]
    ensures { result ≡ packed_of line.now at length }
{
    [
        name_byte(line, at, length, 0),
        name_byte(line, at, length, 1),
        name_byte(line, at, length, 2),
        name_byte(line, at, length, 3),
        name_byte(line, at, length, 4),
        name_byte(line, at, length, 5),
        name_byte(line, at, length, 6),
        name_byte(line, at, length, 7),
    ]
}

// The text of a length whose first quote stands at a place.
pub fn inside<'a>(line: &'a [u8], at: usize, length: usize) -> &'a [u8]
    ensures { result.now ≡ take length (drop (at + 1) line.now) }
{
    if at < line.len() {
        first(rest(line, at + 1), length)
    } else {
        rest(line, at)
    }
}
