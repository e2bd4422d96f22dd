// A thin reader of a command's line.
//
// Paper 01: "One call reads one command at the front of the input". A `Reader` holds the line and a place in it, and `field` reads what a letter of
// the grammar stands for at its place. The work is done by `field_at`, on slice and number, which knows nothing of a reader. What is written
// over a `Reader` is proved by hand, so it is little: `read_field` has plain parameters, stands a reader at the place and reads with it, and
// whoever reads the fields of a line calls `read_field`.
#![tactic(auto)]

ghost use Rattle.std.specs.Prelude.{◌≡◌};
ghost use Rattle.reader.specs.Letters.{field_at};

use classes::Class;
use fields::Field;
use format_field::format_form;
use formats::Stamp;

#[derive(Clone, Copy)]
pub struct Reader<'a> {
    pub line: &'a [u8],
    pub at: usize,
}

// The field that a letter of the grammar stands for, at a place of a line.
fn field_at(line: &[u8], f: u8, at: usize) -> Field
    ensures { result ≡ field_at f line.now at }
{
    match f {
        b'n' => numbers::number(line, at),
        b'w' => numbers::number(line, at),
        b'y' => numbers::number(line, at),
        b't' => fields::text(line, at),
        b'a' => fields::text(line, at),
        b'z' => fields::text(line, at),
        b'u' => fields::text(line, at),
        b's' => numbers::signed(line, at),
        b'm' => fields::letter(line, Class::Mode, at),
        b'j' => fields::letter(line, Class::Side, at),
        b'k' => fields::bar_type(line, at),
        b'h' => fields::under(line, at),
        b'd' => data_field::data_form(line, at),
        b'f' => format_form(line, Stamp::Date, at),
        b'g' => format_form(line, Stamp::Time, at),
        _ => fields::literal(line, f, at),
    }
}

// The same, at the reader's place. The field's answer says where the reading stopped.
pub fn field<'a>(r: Reader<'a>, f: u8) -> Field
    ensures { result ≡ field_at f r.entry.line.now r.entry.at }
{
    field_at(r.line, f, r.at)
}

// The same, by a reader that stands at a place of a line.
pub fn read_field(line: &[u8], f: u8, at: usize) -> Field
    ensures { result ≡ field_at f line.now at }
{
    field(Reader { line, at }, f)
}
