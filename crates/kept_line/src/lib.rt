// A line as a form keeps it, and what it holds.
//
// Paper 01 has each form "a row of normalised lines that recording would take one after another". `stored_item` says what such a line holds, an item, or
// nothing that a form may have. How the lines of a form are read one after another is said in crate `form_lines`, which items recording takes in
// crate `recording`.
#![tactic(auto)]

ghost use Rattle.std.specs.Prelude.{◌≡◌};
ghost use Rattle.normal.specs.Commands.{within_limits};
ghost use Rattle.kept_line.specs.Held.{held_command, held_read, item_in};

use grammar::makers::command_of;
use grammar::{Command, Item};
use heads::head_of;
use normal::put_row;
use parts::first;
use row_fields::read_fields;
use row_limits::row_limits;
use writing::same;

// What a command is to a form: an item, or nothing that a form may have.
fn held_command(c: Command) -> Option<Item>
    ensures { result ≡ held_command c }
{
    match c {
        Command::Item(item) => Some(item),
        _ => None,
    }
}

// What the fields of a row hold. No line that may stand in a form asks for the rows of a page.
fn held_within(line: &[u8], row: usize, vs: &[usize; 18], ps: &[usize; 18]) -> Option<Item>
    ensures { result ≡ held_read (within_limits row 1 line.now vs.now ps.now) }
{
    row_limits(line, row, 1, vs, ps).ok()?;
    held_command(command_of(line, row, vs, ps))
}

// What a stored line holds: a line of more than 255 bytes, or one that is not its own normal form, holds nothing. Its fields are read once: what they hold is
// written and compared, then held to its limits, and an item goes to the caller with no other answer around it.
pub fn stored_item(line: &[u8]) -> Option<Item>
    ensures { result ≡ item_in line.now }
{
    if 255 < line.len() {
        return None;
    }
    let row = head_of(line)?;
    let mut vs = [0usize; 18];
    let mut ps = [0usize; 18];
    read_fields(line, row, &mut vs, &mut ps).ok()?;
    let mut out = [0u8; 256];
    let n = put_row(line, row, &vs, &ps, &mut out);
    if same(first(&out, n), line) {
        return held_within(line, row, &vs, &ps);
    }
    None
}
