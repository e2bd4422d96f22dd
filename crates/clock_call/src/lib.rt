// The clock call.
//
// Paper 02, §10: the clock is "moved by a call that gives the seconds passed, 0 to 86,400; past the end of 2099 it stands at the last second". It may be made at any
// time, between owed labels too, and looks at nothing but the clock: 3 where that is no date and time, 7 where more seconds than a day's are given. `pass`
// promises one equation with `passed` (specs/Passing.antt), for any session. How a clock moves is said in crate `calendar`.
#![tactic(auto)]

ghost use Rattle.std.specs.Prelude.{◌≡◌};
ghost use Rattle.clock_call.specs.Passing.{passed};

use answers::Answer;
use calendar::{Unmoved, move_clock};
use session::{Labelled, Session};

// Seconds pass.
pub fn pass(session: Session, seconds: u64) -> Labelled
    ensures { result ≡ passed session seconds }
{
    let before = session.clock;
    match move_clock(before, seconds) {
        Ok(clock) => Labelled {
            answer: Answer::Taken,
            session: session.clocked(clock),
        },
        Err(Unmoved::NoClock) => Labelled {
            answer: Answer::Unsound,
            session: session,
        },
        Err(Unmoved::TooLong) => Labelled {
            answer: Answer::Limits(0),
            session: session,
        },
    }
}
