// What a command leaves, and what the groups of commands share.
//
// Each command checks first, by its rows of paper 01's table, and only then changes what it was lent. What it leaves is `Done`: its answer, the session
// after it and how many bytes it wrote. A name that a command gives is looked up here, in the one directory of forms and pictures. What FK
// and GK erase is erased here for both, with the number of free portions after it.
#![tactic(auto)]

ghost use Rattle.std.specs.Prelude.{◌≡◌};
ghost use Rattle.stored_values.specs.Stored.{unset};
ghost use Rattle.answers.specs.declared.Answer.TheVariants.{Taken};
ghost use Rattle.session.specs.Session.{activated};
ghost use Rattle.results.specs.Result.{done};

use answers::Answer;
use session::Session;
use stored_values::unset_all;

pub mod names; // entries by name

// What a line leaves: its answer, the session and how many bytes it wrote.
#[derive(Clone, Copy)]
pub struct Done {
    pub answer: Answer,
    pub session: Session,
    pub written: usize,
}

// An answer, with the session after it.
pub fn answered(answer: Answer, session: Session) -> Done
    ensures { result ≡ done answer session 0 }
{
    Done {
        answer: answer,
        session: session,
        written: 0,
    }
}

pub fn taken(session: Session) -> Done
    ensures { result ≡ done Taken session 0 }
{
    Done {
        answer: Answer::Taken,
        session: session,
        written: 0,
    }
}

// "FR unsets all values; so does the end of activity."
pub fn activate(session: Session, i: u16, values: &mut [u8]) -> Done
    ensures { (result ≡ done Taken (activated session i) 0) × (values.new ≡ unset values.old) }
{
    unset_all(values);
    taken(session.activated(i))
}
