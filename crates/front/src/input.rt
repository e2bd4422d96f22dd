// The front of the input: the line that a call reads, and how much of the input it reads.
ghost use Rattle.std.specs.Prelude.{◌≡◌, ◌≤◌, ◌<◌, length};
ghost use Rattle.grammar.specs.Named.{GM};
ghost use Rattle.grammar.specs.Forms.{row_of, Form};
ghost use Rattle.row_fields.specs.Reading.{fields_from};
ghost use Rattle.front.specs.Front.{size_of, asked, line_front, front_of};

use crate::Front;
use classes::Class;
use grammar::row;
use heads::head_of;
use row_fields::read_fields;

// The slot of n in `GMa,n`.
const SIZE: usize = 4;

// How many bytes a line of the form of GM asks for.
fn size(line: &[u8]) -> usize
    ensures { (result ≡ size_of (fields_from (row_of GM).fields line.now 0)) × (result ≤ 32768) }
{
    let mut vs = [0usize; 18];
    let mut ps = [0usize; 18];
    if read_fields(line, row::GM, &mut vs, &mut ps).is_err() {
        return 0;
    }
    let n = vs[SIZE];
    if n < 1 {
        return 0;
    }
    if 32768 < n {
        return 0;
    }
    n
}

// How many bytes a line asks for after it.
fn wanted(line: &[u8]) -> usize
    ensures { (result ≡ asked line.now) × (result ≤ 32768) }
{
    let Some(row) = head_of(line) else {
        return 0;
    };
    if row != row::GM {
        return 0;
    }
    size(line)
}

// The first line, of n bytes before its LF.
fn line_front(input: &[u8], n: usize) -> Front
    requires { (n < length input.now) × (n < 256) }
    ensures { result ≡ line_front input.now n }
{
    if n == 0 {
        return Front::Idle(n + 1);
    }
    if input[0] == b';' {
        return Front::Idle(n + 1);
    }
    let read = n + 1 + wanted(&input[..n]);
    if read <= input.len() {
        Front::Line(n, read)
    } else {
        Front::Short
    }
}

// What stands at the front of the input.
pub fn front(input: &[u8]) -> Front
    ensures { result ≡ front_of input.now }
{
    let n = classes::run_end(input, Class::Inside, 0);
    if n < input.len() {
        if n < 256 {
            return line_front(input, n);
        }
        return Front::Long(n + 1);
    }
    if input.len() < 256 {
        Front::Short
    } else {
        Front::Long(input.len())
    }
}
