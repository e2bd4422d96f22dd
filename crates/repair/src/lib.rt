// A store that came back from a bad card (paper 02, §11): the call.
//
// "Stores are carried between stations, and one broken link makes all forms unreadable." `repair` judges every entry of a lent directory (crate `verdicts`), keeps
// those that may be kept, zeroes and frees all else (`mending`), and lists what it did (`verdict_list`). It promises one equation between its outcome with every
// lent list at exit and `repaired` (specs/Repair.antt), for any memory: all is judged before anything is written, so that a refusal leaves "nothing touched".
#![tactic(auto)]

ghost use Rattle.std.specs.Prelude.{◌≡◌, ◌*◌};
ghost use Rattle.dots.specs.Dots.{bytes_a_row};
ghost use Rattle.memory.specs.Memory.{memory};
ghost use Rattle.lent.specs.Lent.{lengths_wrong};
ghost use Rattle.repair.specs.Repair.{repaired_by, outcome, repaired};

use answers::Answer;
use dots::BYTES_A_ROW;
use lent::lengths_wrong;
use mending::mend;
use session::Session;
use store::{MOST_ENTRIES, MOST_PORTIONS, free_count};
use stored_values::unset_all;
use verdict_list::{list, list_length};
use verdicts::judge;

// "N rows, 1 to 4,000."
const MOST_ROWS: u64 = 4000;

// What the call answers: the answer, the session, and how many bytes of the list it wrote.
#[derive(Clone, Copy)]
pub struct Outcome {
    pub answer: Answer,
    pub session: Session,
    pub written: usize,
}

// A lent length is wrong, as it is beside a background of N rows, or N itself.
fn lent_wrong(rows: u64, store: usize, links: usize, directory: usize, values: usize) -> bool
    ensures { result ≡ lengths_wrong (rows * bytes_a_row) store links directory values }
{
    if MOST_ROWS < rows {
        return true;
    }
    lengths_wrong(rows as usize * BYTES_A_ROW, store, links, directory, values)
}

// "Refusals: .. with nothing touched."
fn refused(answer: Answer, session: Session) -> Outcome
    ensures { result ≡ outcome answer session 0 }
{
    Outcome {
        answer,
        session,
        written: 0,
    }
}

// Repairs what is lent for a page of N rows with a white background, and lists what it did.
pub fn repair(
    session: Session,
    rows: u64,
    store: &mut [u8],
    links: &mut [u16],
    directory: &mut [u8],
    values: &mut [u8],
    output: &mut [u8],
) -> Outcome
    ensures { repaired_by result (memory store.new links.new directory.new) values.new output.new ≡ repaired session rows (memory store.old links.old directory.old) values.old output.old }
{
    if lent_wrong(
        rows,
        store.len(),
        links.len(),
        directory.len(),
        values.len(),
    ) {
        return refused(Answer::Lengths, session);
    }
    let mut verdicts = [0u8; MOST_ENTRIES];
    let mut fills = [0u16; MOST_PORTIONS];
    judge(store, links, directory, &mut verdicts, &mut fills);
    if output.len() < list_length(&verdicts) {
        return refused(Answer::Overlong, session);
    }
    let written = list(&verdicts, output);
    mend(store, links, directory, &verdicts, &fills);
    unset_all(values);
    let next = Session::fresh(rows as u16, free_count(links) as u16);
    Outcome {
        answer: Answer::Taken,
        session: next,
        written,
    }
}
