// The front of the input.
//
// Paper 01 says under "Reading a command" that a call reads one command at the front of the input: a line, and for GM the bytes behind it. `front` finds the line at the front of any input
// and how much a call reads of it, or too little (answer 4), or too long a line (answer 5). An empty line and a comment are told here too.
#![tactic(auto)]

pub mod input;

// What stands at the front of the input: too little (answer 4); too long a line (answer 5), and how many bytes a call reads then; an empty
// line or a comment, and how many bytes it takes; or a line, how many bytes stand before its LF, and how many bytes a call reads.
#[derive(Clone, Copy)]
pub enum Front {
    Short,
    Long(usize),
    Idle(usize),
    Line(usize, usize),
}
