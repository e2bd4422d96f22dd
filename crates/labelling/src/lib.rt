// A label call.
//
// Paper 01's table decides first: 1, 2 and 3, then 21, "a label call with none owed". What a label is, `Session::label` says and does: "A label call
// copies the background, runs the active form from the session's origin, turns the page, moves counters, and counts one drawn". `label` promises one
// equation between its result with the page at exit and `labelled_by` (specs/Labelling.antt) of what it was lent; a refusal leaves session and page.
#![tactic(auto)]

ghost use Rattle.std.specs.Prelude.{◌≡◌};
ghost use Rattle.answers.specs.Answers.{answer_of};
ghost use Rattle.lent.specs.Lent.{world};
ghost use Rattle.labelling.specs.Labelling.{label_table, drawn_by, labelled_by};

use answers::{Answer, is_taken};
use ground::either;
use session::{Labelled, Session};
use sound::entry_answer;

// The table of a label call.
fn label_answer(
    session: Session,
    font: &[u8],
    page: usize,
    background: &[u8],
    store: &[u8],
    links: &[u16],
    directory: &[u8],
    values: &[u8],
) -> Answer
    ensures { result ≡ answer_of (label_table session font.now (world background.now store.now links.now directory.now values.now) page) }
{
    let wrong = lent::lengths_wrong(
        background.len(),
        store.len(),
        links.len(),
        directory.len(),
        values.len(),
    );
    let uneven = page != background.len();
    let a = entry_answer(
        either(wrong, uneven),
        session,
        font,
        background,
        store,
        links,
        directory,
        values,
    );
    if !is_taken(a) {
        return a;
    }
    let owed = session.owed;
    if owed == 0 {
        return Answer::NoneOwed;
    }
    Answer::Taken
}

pub fn label(
    session: Session,
    font: &[u8],
    page: &mut [u8],
    background: &[u8],
    store: &[u8],
    links: &[u16],
    directory: &[u8],
    values: &[u8],
) -> Labelled
    ensures { drawn_by result page.new ≡ labelled_by session font.now (world background.now store.now links.now directory.now values.now) page.old }
{
    let a = label_answer(
        session,
        font,
        page.len(),
        background,
        store,
        links,
        directory,
        values,
    );
    if !is_taken(a) {
        return Labelled {
            answer: a,
            session: session,
        };
    }
    let after = session.label(font, page, background, store, links, directory, values);
    Labelled {
        answer: Answer::Taken,
        session: after,
    }
}
