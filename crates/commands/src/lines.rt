// One line that was read at the front of the input: run, or recorded.
ghost use Rattle.std.specs.Prelude.{◌≡◌, Ok};
ghost use Rattle.lent.specs.Lent.{world};
ghost use Rattle.results.specs.Result.{ran};
ghost use Rattle.commands.specs.Rows.{fault_answer};
ghost use Rattle.commands.specs.Running.{ran_read, line_by, IsShort};

use crate::records::record;
use crate::runs::run;
use answers::Answer;
use grammar::Command;
use read::Fault;
use results::{Done, answered};
use session::Session;

// [6] or [7], at the place that reading found.
fn fault_answer(fault: Fault) -> Answer
    ensures { result ≡ fault_answer fault }
{
    match fault {
        Fault::Form(p) => Answer::Unwritten(p),
        Fault::Limit(p) => Answer::Limits(p),
    }
}

// A command that was read: [8], then by whether a form is being recorded.
fn on_command(
    session: Session,
    command: Command,
    font: &[u8],
    line: &[u8],
    more: &[u8],
    background: &mut [u8],
    store: &mut [u8],
    links: &mut [u16],
    directory: &mut [u8],
    values: &mut [u8],
    output: &mut [u8],
) -> Done
    requires { IsShort command line.now }
    ensures { ran result (world background.new store.new links.new directory.new values.new) output.new ≡ ran_read font.now (world background.old store.old links.old directory.old values.old) session line.now more.now output.old (Ok command) }
{
    let owed = session.owed;
    if 0 < owed {
        return answered(Answer::Owing, session);
    }
    match finding::recording(directory) {
        Some(i) => record(session, command, line, i, store, links, directory),
        None => run(
            session, command, font, line, more, background, store, links, directory, values, output,
        ),
    }
}

// A line, with the bytes behind it that a GM asks for.
pub fn run_line(
    session: Session,
    font: &[u8],
    line: &[u8],
    more: &[u8],
    background: &mut [u8],
    store: &mut [u8],
    links: &mut [u16],
    directory: &mut [u8],
    values: &mut [u8],
    output: &mut [u8],
) -> Done
    ensures { ran result (world background.new store.new links.new directory.new values.new) output.new ≡ line_by font.now (world background.old store.old links.old directory.old values.old) session line.now more.now output.old }
{
    if lent::lengths_wrong(
        background.len(),
        store.len(),
        links.len(),
        directory.len(),
        values.len(),
    ) {
        return answered(Answer::Lengths, session);
    }
    if 255 < line.len() {
        return answered(Answer::Long, session);
    }
    let rows = background.len() / 76;
    match read::read_line(line, rows) {
        Ok(command) => on_command(
            session, command, font, line, more, background, store, links, directory, values, output,
        ),
        Err(fault) => answered(fault_answer(fault), session),
    }
}
