// Opening a station.
//
// Paper 01: "Opening clears all lent memory (output aside), frees all portions, and sets width 608, length N, origin 0,0, ZT, nothing owed." The
// number of free portions is then that of all (paper 02, §6). It looks at lengths alone (1), so that any memory can be opened, and "a refused opening returns zeros" and leaves what it was lent. `open` promises one equation
// between its result with every lent list at exit and `opened` (specs/Opening.antt) of what it was lent.
#![tactic(auto)]

ghost use Rattle.std.specs.Prelude.{◌≡◌};
ghost use Rattle.session.specs.Label.{labelled};
ghost use Rattle.lent.specs.Lent.{world};
ghost use Rattle.session.specs.Session.{none};
ghost use Rattle.answers.specs.declared.Answer.TheVariants.{Lengths};
ghost use Rattle.opening.specs.Opening.{opened_by, opened};

use answers::Answer;
use dots::BYTES_A_ROW;
use session::{Labelled, Session};

// "a refused opening returns zeros."
fn refused() -> Labelled
    ensures { result ≡ labelled Lengths none }
{
    let session = Session::none();
    Labelled {
        answer: Answer::Lengths,
        session: session,
    }
}

pub fn open(
    page: &mut [u8],
    background: &mut [u8],
    store: &mut [u8],
    links: &mut [u16],
    directory: &mut [u8],
    values: &mut [u8],
) -> Labelled
    ensures { opened_by result page.new (world background.new store.new links.new directory.new values.new) ≡ opened page.old (world background.old store.old links.old directory.old values.old) }
{
    if lent::lengths_wrong(
        background.len(),
        store.len(),
        links.len(),
        directory.len(),
        values.len(),
    ) {
        return refused();
    }
    if page.len() != background.len() {
        return refused();
    }
    let rows = (background.len() / BYTES_A_ROW) as u16;
    let portions = links.len() as u16;
    pages::whiten(page);
    pages::whiten(background);
    clearing::clear(store, links, directory);
    stored_values::unset_all(values);
    let session = Session::fresh(rows, portions);
    Labelled {
        answer: Answer::Taken,
        session: session,
    }
}
