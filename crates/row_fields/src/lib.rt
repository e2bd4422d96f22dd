// The fields of a line.
//
// Paper 01 writes each command as letters and fields. `read_fields` holds a line to the form of a row of the grammar and leaves the value and the place of
// each field in two arrays, a slot for each byte of the form; or it answers the place where the line has not that form. It serves whoever reads a line: as a command
// (`read`), for the bytes behind it (`front`), in normal form (`normal`).
#![tactic(auto)]

ghost use Rattle.std.specs.Prelude.{◌≡◌};
ghost use Rattle.grammar.specs.Forms.{row_of, Form};
ghost use Rattle.row_fields.specs.Reading.{fields_from, Filled};

use fields::{Field, stop};
use grammar::table::line_up;
use reader::read_field;

// Reads the fields of a row, one after another: a value and a place for each byte of its form, up to the first that is not there. Where the line has not
// the row's form, that place is what is refused.
pub fn read_fields(
    line: &[u8],
    row: usize,
    vs: &mut [usize; 18],
    ps: &mut [usize; 18],
) -> Result<(), usize>
    ensures { Filled (fields_from (row_of row).fields line.now 0) vs.old ps.old result vs.new ps.new }
{
    let up = line_up(row);
    let mut at = 0;
    for i in 0..18usize {
        let f = up[i];
        if f == b' ' {
            break;
        }
        let found = read_field(line, f, at);
        let Ok((v, end)) = found else {
            return Err(stop(found));
        };
        vs[i] = v;
        ps[i] = at;
        at = end;
    }
    if at == line.len() { Ok(()) } else { Err(at) }
}
