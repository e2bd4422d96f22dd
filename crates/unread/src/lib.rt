// The front of the input: what a command call answers there, how many bytes it reads, the line in it, and the unread rest.
//
// Paper 01: "One call reads one command at the front of the input and hands back the unread rest as a part of that input." Where the front ends is crate
// `read`'s subject; here each case of it has its answer, its bytes and its line (specs/Front.antt), and `rest` hands back what a call with a given answer
// left unread, as a part of the caller's slice. Any input and any answer has its rest.
#![tactic(auto)]

ghost use Rattle.std.specs.Prelude.{◌≡◌, drop};
ghost use Rattle.unread.specs.Front.{more_of, front_answer, front_read, is_line, line_in, read_by};

use answers::{Answer, number};
use front::Front;
use ground::{both, less};
use parts::first;

// The answer that the paper gives there.
pub fn front_answer(f: Front) -> Answer
    ensures { result ≡ front_answer f }
{
    match f {
        Front::Short => Answer::Unended,
        Front::Long(_) => Answer::Long,
        Front::Idle(_) => Answer::Taken,
        Front::Line(_, _) => Answer::Taken,
    }
}

// The bytes that are read.
pub fn front_read(f: Front) -> usize
    ensures { result ≡ front_read f }
{
    match f {
        Front::Short => 0,
        Front::Long(k) => k,
        Front::Idle(k) => k,
        Front::Line(_, k) => k,
    }
}

// Whether a line is to be run, and its length.
pub fn is_line(f: Front) -> bool
    ensures { result ≡ is_line f }
{
    match f {
        Front::Short => false,
        Front::Long(_) => false,
        Front::Idle(_) => false,
        Front::Line(_, _) => true,
    }
}

pub fn line_in(f: Front) -> usize
    ensures { result ≡ line_in f }
{
    match f {
        Front::Short => 0,
        Front::Long(_) => 0,
        Front::Idle(_) => 0,
        Front::Line(n, _) => n,
    }
}

// What follows a line of n bytes and its LF, up to k bytes read.
pub fn more_of<'a>(input: &'a [u8], n: usize, k: usize) -> &'a [u8]
    ensures { result.now ≡ more_of input.now n k }
{
    let behind = parts::rest(input, n);
    first(parts::rest(behind, 1), less(less(k, n), 1))
}

// "Answers 1 to 4 read nothing."
fn read_by(input: &[u8], answer: Answer) -> usize
    ensures { result ≡ read_by answer input.now }
{
    let n = number(answer);
    if both(1 <= n, n <= 4) {
        return 0;
    }
    front_read(front::input::front(input))
}

// The unread rest of the input of a call that gave this answer, as a part of the caller's slice.
pub fn rest<'a>(input: &'a [u8], answer: Answer) -> &'a [u8]
    ensures { result.now ≡ drop (read_by answer input.now) input.now }
{
    let read = read_by(input, answer);
    parts::rest(input, read)
}
