// The line of a row: its form comes before its limits.
ghost use Rattle.std.specs.Prelude.{◌≡◌};
ghost use Rattle.grammar.specs.Forms.{row_of, Form};
ghost use Rattle.row_fields.specs.Reading.{fields_from};
ghost use Rattle.read.specs.Commands.{judged, within_limits};

use crate::Fault;
use grammar::Command;
use grammar::makers::command_of;
use row_fields::read_fields;
use row_limits::row_limits;

// The line of a row whose fields are read: a command, or 7.
fn within(
    line: &[u8],
    row: usize,
    rows: usize,
    vs: &[usize; 18],
    ps: &[usize; 18],
) -> Result<Command, Fault>
    ensures { result ≡ within_limits row rows line.now vs.now ps.now }
{
    row_limits(line, row, rows, vs, ps).map_err(Fault::Limit)?;
    Ok(command_of(line, row, vs, ps))
}

// The line of a row: the form comes before the limits.
pub fn judge(line: &[u8], row: usize, rows: usize) -> Result<Command, Fault>
    ensures { result ≡ judged row rows line.now (fields_from (row_of row).fields line.now 0) }
{
    let mut vs = [0usize; 18];
    let mut ps = [0usize; 18];
    read_fields(line, row, &mut vs, &mut ps).map_err(Fault::Form)?;
    within(line, row, rows, &vs, &ps)
}
