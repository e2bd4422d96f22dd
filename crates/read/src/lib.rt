// Reads one line of the label station's language.
//
// Paper 01 says under "Reading a command" what a line is. `read_line` holds a line to the row of the grammar that its letters name and answers a
// command by value, or 6 where the line has not the written form, or 7 where a number, name or prompt is outside its limits.
// What a command does, and whether it has a place here, is said in the crates above.
#![tactic(auto)]

mod lines; // the line of a row

ghost use Rattle.std.specs.Prelude.{◌≡◌};
ghost use Rattle.read.specs.Commands.{read_of};

use grammar::Command;
use heads::{head_of, letters_fault};

// Answer 6, the form, or 7, a limit; and the place at fault.
#[derive(Clone, Copy)]
pub enum Fault {
    Form(usize),
    Limit(usize),
}

// Reads a line without its LF, on a page of so many rows.
pub fn read_line(line: &[u8], rows: usize) -> Result<Command, Fault>
    ensures { result ≡ read_of rows line.now }
{
    let Some(row) = head_of(line) else {
        return Err(Fault::Form(letters_fault(line)));
    };
    lines::judge(line, row, rows)
}
