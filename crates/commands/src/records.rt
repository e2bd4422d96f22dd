// "While recording only R, V, C, A, B, LO, LE, LW, X, GG and FE have a place", "LS may be recorded", and "TD and TT may be recorded."
ghost use Rattle.std.specs.Prelude.{◌≡◌, not, [], ◌∷◌, ◌+◌, ◌<◌, length};
ghost use Rattle.store.specs.Entry.{entry};
ghost use Rattle.contents.specs.Content.{content};
ghost use Rattle.grammar.specs.declared.Command.TheVariants.{Item as It, End};
ghost use Rattle.normal.specs.Written.{normal};
ghost use Rattle.forms.specs.Form.{declared_of};
ghost use Rattle.room.specs.Room.{can_grow};
ghost use Rattle.answers.specs.declared.Answer.TheVariants.{FewPortions};
ghost use Rattle.answers.specs.Answers.{row, answer_of};
ghost use Rattle.lent.specs.Lent.{world};
ghost use Rattle.results.specs.Result.{ran};
ghost use Rattle.item_commands.specs.Items.{item_rows};
ghost use Rattle.commands.specs.Running.{record_by, IsShort};

use answers::{Answer, is_taken};
use free_number::after_grown;
use grammar::{Command, Item};
use item_commands::item_answer;
use parts::first;
use results::{Done, answered, taken};
use session::Session;

// [11] to [15], then [19], for an item recorded in entry i as n bytes and LF, with so many portions free.
fn record_answer(
    free: usize,
    store: &[u8],
    links: &[u16],
    directory: &[u8],
    line: &[u8],
    i: usize,
    item: Item,
    n: usize,
) -> Answer
    requires { n < 256 }
    ensures { result ≡ answer_of (item_rows (declared_of (content store.now links.now directory.now i)) directory.now line.now item (row FewPortions (not (can_grow free (entry directory.now i) (n + 1))) ∷ [])) }
{
    let d = forms::declared_at(store, links, directory, i);
    let a = item_answer(directory, line, item, d);
    if !is_taken(a) {
        return a;
    }
    if room::can_grow(free, directory, i, n + 1) {
        return Answer::Taken;
    }
    Answer::FewPortions
}

// "A recorded line is checked and kept, not run", in normal form and with its LF.
fn record_item(
    session: Session,
    store: &mut [u8],
    links: &mut [u16],
    directory: &mut [u8],
    line: &[u8],
    i: usize,
    item: Item,
) -> Done
    requires { length (normal line.now) < 256 }
    ensures { ran result (world [] store.new links.new directory.new []) [] ≡ record_by (world [] store.old links.old directory.old []) session line.now i [] (It item) }
{
    // every byte is LF, so that one stands behind the line
    let mut buffer = [10u8; 256];
    let n = normal::write(line, &mut buffer);
    let free = session.free as usize;
    let a = record_answer(free, store, links, directory, line, i, item, n);
    if !is_taken(a) {
        return answered(a, session);
    }
    let after = after_grown(session, directory, i, (n + 1) as u16);
    growing::grow(store, links, directory, i, first(&buffer, n + 1));
    taken(after)
}

// FE: kind 3 to 1.
fn end_form(session: Session, directory: &mut [u8], i: usize) -> Done
    ensures { ran result (world [] [] [] directory.new []) [] ≡ record_by (world [] [] [] directory.old []) session [] i [] End }
{
    starting::finish(directory, i);
    taken(session)
}

// A command while the form of entry i is recorded. `on_command` asks, for a command that was read from this line, whose normal form is short.
pub(crate) fn record(
    session: Session,
    command: Command,
    line: &[u8],
    i: usize,
    store: &mut [u8],
    links: &mut [u16],
    directory: &mut [u8],
) -> Done
    requires { IsShort command line.now }
    ensures { ran result (world [] store.new links.new directory.new []) [] ≡ record_by (world [] store.old links.old directory.old []) session line.now i [] command }
{
    match command {
        Command::Item(item) => record_item(session, store, links, directory, line, i, item),
        Command::End => end_form(session, directory, i),
        _ => answered(Answer::Misplaced, session),
    }
}
