// Forms: FS starts one, FR retrieves one, FK erases one or all.
//
// Paper 01: "FR unsets all values; so does the end of activity, by N or FK. New entries and portions are the lowest free; room freed is used again, zeroed.
// A starting form takes one portion." Room is asked of the session's number of free portions, which FS and FK keep right (paper 02, §6). `run_form` promises one equation with `form_by` (specs/Forms.antt): its rows of the table, then what it does.
#![tactic(auto)]

ghost use Rattle.std.specs.Prelude.{◌≡◌, []};
ghost use Rattle.grammar.specs.declared.FormCommand.TheVariants.{Start, Retrieve, Erase};
ghost use Rattle.lent.specs.Lent.{world};
ghost use Rattle.results.specs.Result.{ran};
ghost use Rattle.form_commands.specs.Forms.{form_by};

use answers::{Answer, is_taken};
use free_number::after_stored;
use full::full_answer;
use grammar::{FormCommand, Named};
use parts::packed;
use results::names::{entry_of, erase_every, erase_found, is_missing, place_of};
use results::{Done, activate, answered, taken};
use session::{NO_FORM, Session};

fn start_form(
    session: Session,
    line: &[u8],
    n: Named,
    links: &mut [u16],
    directory: &mut [u8],
) -> Done
    ensures { ran result (world [] [] links.new directory.new []) [] ≡ form_by (world [] [] links.old directory.old []) session line.now (Start n) }
{
    let at = n.at;
    let length = n.length;
    let title = packed(line, at, length);
    if finding::find(directory, false, title).is_some() {
        return answered(Answer::InUse, session);
    }
    let free = session.free as usize;
    let full = full_answer(free, directory, 0);
    if !is_taken(full) {
        return answered(full, session);
    }
    starting::begin(links, directory, 3, title);
    taken(after_stored(session, 0))
}

fn retrieve(session: Session, line: &[u8], n: Named, directory: &[u8], values: &mut [u8]) -> Done
    ensures { ran result (world [] [] [] directory.now values.new) [] ≡ form_by (world [] [] [] directory.now values.old) session line.now (Retrieve n) }
{
    let found = entry_of(directory, false, line, n);
    if is_missing(n, found) {
        return answered(Answer::Missing, session);
    }
    activate(session, place_of(found), values)
}

fn erase_form(
    session: Session,
    line: &[u8],
    n: Named,
    store: &mut [u8],
    links: &mut [u16],
    directory: &mut [u8],
    values: &mut [u8],
) -> Done
    ensures { ran result (world [] store.new links.new directory.new values.new) [] ≡ form_by (world [] store.old links.old directory.old values.old) session line.now (Erase n) }
{
    let all = n.all;
    let found = entry_of(directory, false, line, n);
    if is_missing(n, found) {
        return answered(Answer::Missing, session);
    }
    if all {
        let after = erase_every(session, store, links, directory, false);
        return activate(after, NO_FORM, values);
    }
    let i = place_of(found);
    let active = session.active;
    let after = erase_found(session, store, links, directory, found);
    if active == i {
        return activate(after, NO_FORM, values);
    }
    taken(after)
}

// A command of forms.
pub fn run_form(
    session: Session,
    command: FormCommand,
    line: &[u8],
    store: &mut [u8],
    links: &mut [u16],
    directory: &mut [u8],
    values: &mut [u8],
) -> Done
    ensures { ran result (world [] store.new links.new directory.new values.new) [] ≡ form_by (world [] store.old links.old directory.old values.old) session line.now command }
{
    match command {
        FormCommand::Start(n) => start_form(session, line, n, links, directory),
        FormCommand::Retrieve(n) => retrieve(session, line, n, directory, values),
        FormCommand::Erase(n) => erase_form(session, line, n, store, links, directory, values),
    }
}
