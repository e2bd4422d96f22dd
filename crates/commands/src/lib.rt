// One line run or recorded.
//
// Paper 01's "Commands", with its table from 6 on. A command is run by its group's crate, each of which checks first, by its rows of the table, and only then
// changes what it was lent, so that a refusal changes nothing. Here are 6, 7 and 8, 9 by where each command has its place (crate `places`), and recording.
// `run_line` promises one equation between its result with every lent list at exit and `line_by` (specs/Running.antt) of what it was lent, for any line,
// any session, any memory and any font.
#![tactic(auto)]

mod lines; // a line: 6, 7, 8, then by whether a form is recorded
mod records; // commands while a form is recorded
mod runs; // commands otherwise, by their groups

pub use lines::run_line;
