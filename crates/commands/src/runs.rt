// Commands while no form is recorded: "otherwise all but V, C and FE" have a place. Each group's crate runs its own.
ghost use Rattle.std.specs.Prelude.{◌≡◌};
ghost use Rattle.lent.specs.Lent.{world};
ghost use Rattle.results.specs.Result.{ran};
ghost use Rattle.commands.specs.Running.{run_by};

use answers::Answer;
use clock_commands::run_clock;
use form_commands::run_form;
use grammar::{Command, Item};
use item_commands::run_item;
use listing_commands::run_listing;
use page_commands::run_page;
use picture_commands::run_picture;
use places::has_place;
use results::{Done, answered, taken};
use session::Session;
use value_commands::run_value;

// A command, by its group.
pub(crate) fn run(
    session: Session,
    command: Command,
    font: &[u8],
    line: &[u8],
    more: &[u8],
    background: &mut [u8],
    store: &mut [u8],
    links: &mut [u16],
    directory: &mut [u8],
    values: &mut [u8],
    output: &mut [u8],
) -> Done
    ensures { ran result (world background.new store.new links.new directory.new values.new) output.new ≡ run_by font.now (world background.old store.old links.old directory.old values.old) session line.now more.now output.old command }
{
    if !has_place(command) {
        return answered(Answer::Misplaced, session);
    }
    match command {
        Command::Item(item) => run_item(
            session, font, background, store, links, directory, values, line, item,
        ),
        Command::End => taken(session),
        Command::Page(c) => run_page(session, c, background, values),
        Command::Forms(c) => run_form(session, c, line, store, links, directory, values),
        Command::Pictures(c) => run_picture(session, c, line, more, store, links, directory),
        Command::Values(c) => run_value(session, c, line, store, links, directory, values),
        Command::Listing(c) => run_listing(session, c, line, store, links, directory, output),
        Command::Clock(c) => run_clock(session, c),
    }
}
