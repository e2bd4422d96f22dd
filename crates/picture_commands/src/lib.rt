// Pictures: GM stores one, GK erases one or all.
//
// Paper 01: `GM"Name",n` with the n bytes behind its line, and `GK"Name"`, where `"*"` erases all. Room is asked of the
// session's number of free portions, which GM and GK keep right (paper 02, §6). `run_picture` promises one equation with `picture_by` (specs/Pictures.antt): its rows of
// the table, then what it does.
#![tactic(auto)]

ghost use Rattle.std.specs.Prelude.{◌≡◌, []};
ghost use Rattle.grammar.specs.declared.PictureCommand.TheVariants.{Store as Keep, Erase};
ghost use Rattle.lent.specs.Lent.{world};
ghost use Rattle.results.specs.Result.{ran};
ghost use Rattle.picture_commands.specs.Pictures.{picture_by};

use answers::{Answer, is_taken};
use free_number::after_stored;
use full::full_answer;
use grammar::{Named, PictureCommand, StorePicture};
use parts::packed;
use results::names::{entry_of, erase_every, erase_found, is_missing};
use results::{Done, answered, taken};
use session::Session;

fn keep_picture(
    session: Session,
    line: &[u8],
    p: StorePicture,
    more: &[u8],
    store: &mut [u8],
    links: &mut [u16],
    directory: &mut [u8],
) -> Done
    ensures { ran result (world [] store.new links.new directory.new []) [] ≡ picture_by (world [] store.old links.old directory.old []) session line.now more.now (Keep p) }
{
    let at = p.at;
    let length = p.length;
    let title = packed(line, at, length);
    if finding::find(directory, true, title).is_some() {
        return answered(Answer::InUse, session);
    }
    if !pcx::is_legal(more) {
        return answered(Answer::Illegal, session);
    }
    let free = session.free as usize;
    let full = full_answer(free, directory, more.len());
    if !is_taken(full) {
        return answered(full, session);
    }
    growing::keep(store, links, directory, 2, title, more);
    taken(after_stored(session, more.len()))
}

fn erase_picture(
    session: Session,
    line: &[u8],
    n: Named,
    store: &mut [u8],
    links: &mut [u16],
    directory: &mut [u8],
) -> Done
    ensures { ran result (world [] store.new links.new directory.new []) [] ≡ picture_by (world [] store.old links.old directory.old []) session line.now [] (Erase n) }
{
    let all = n.all;
    let found = entry_of(directory, true, line, n);
    if is_missing(n, found) {
        return answered(Answer::Missing, session);
    }
    if all {
        let after = erase_every(session, store, links, directory, true);
        return taken(after);
    }
    let after = erase_found(session, store, links, directory, found);
    taken(after)
}

// A command of pictures, with the bytes behind a GM's line.
pub fn run_picture(
    session: Session,
    command: PictureCommand,
    line: &[u8],
    more: &[u8],
    store: &mut [u8],
    links: &mut [u16],
    directory: &mut [u8],
) -> Done
    ensures { ran result (world [] store.new links.new directory.new []) [] ≡ picture_by (world [] store.old links.old directory.old []) session line.now more.now command }
{
    match command {
        PictureCommand::Store(p) => keep_picture(session, line, p, more, store, links, directory),
        PictureCommand::Erase(n) => erase_picture(session, line, n, store, links, directory),
    }
}
