// The station: opening, one command, one label, and seconds that pass.
//
// Paper 01 from "What is lent" to "Labels", and paper 02, §10. Each call promises one equation between its result with every lent list at exit and `opened`,
// `commanded`, `labelled_by` (crate `calls`) or `passed` (crate `clock_call`) of what it was lent, for any session, any memory, any font and any input; no caller
// has to have checked anything. It checks first and only then changes what it was lent, so that a refusal changes nothing. Opening, the label call, the clock
// call and the unread rest of an input stand in crates of their own, and the command call here. What a session of calls amounts to is said in crate `demands`.
#![tactic(auto)]

mod commanding; // one command at the front of the input

pub use calls::Outcome;
pub use clock_call::pass;
pub use commanding::command;
pub use labelling::label;
pub use opening::open;
pub use session::Labelled;
pub use unread::rest;
