// The three calls by definition: opened, commanded, labelled.
//
// Paper 01 from "What is lent" to "Labels". Each call checks first, by the table of answers (the first row that applies is the answer), and only then
// changes what it was lent. specs/Table.antt is the table of a command call, specs/Station.antt what a command that is taken does and what one that is
// refused leaves; opening and the label call are defined in their own crates. proofs/Promises.antt: a refusal keeps session and every lent list, what a
// call reads its answer tells, and two outcomes of one call are equal. No code but the outcome's type: crate `station` has the calls.
#![tactic(auto)]

use answers::Answer;
use session::Session;

// What a command call answers: the answer, the session, and how many bytes it read and wrote.
#[derive(Clone, Copy)]
pub struct Outcome {
    pub answer: Answer,
    pub session: Session,
    pub read: usize,
    pub written: usize,
}
