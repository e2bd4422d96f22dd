// Listings: FI lists the forms, GI the pictures, FP a form's lines.
//
// Paper 01: "A listing line is size, comma, quoted name, in directory order. FP writes the form's bytes", and "A listing reports its bytes written; the output
// beyond is unchanged." `run_listing` promises one equation with `listing_by` (specs/Listings.antt): its rows of the table, then what it writes.
#![tactic(auto)]

ghost use Rattle.std.specs.Prelude.{◌≡◌, [], ◌∷◌, length};
ghost use Rattle.std.proofs.lemmas.List.Edits.{sets};
ghost use Rattle.grammar.specs.declared.ListingCommand.TheVariants.{Form as ListForm};
ghost use Rattle.listing.specs.Listing.{listing};
ghost use Rattle.answers.specs.declared.Answer.TheVariants.{Taken, Overlong};
ghost use Rattle.answers.specs.Answers.{row, answer_of};
ghost use Rattle.lent.specs.Lent.{world};
ghost use Rattle.results.specs.World.{content_at};
ghost use Rattle.results.specs.Result.{done, settles, ran};
ghost use Rattle.listing_commands.specs.Listings.{exceeds, listing_by};

use answers::Answer;
use grammar::{ListingCommand, Named};
use results::names::{entry_of, is_missing};
use results::{Done, answered, taken};
use session::Session;

// FI (kind 1) and GI (kind 2).
fn list_names(session: Session, directory: &[u8], kind: usize, output: &mut [u8]) -> Done
    ensures { (result, output.new) ≡ settles (answer_of (row Overlong (exceeds (listing directory.now kind) (length output.old)) ∷ [])) session output.old (done Taken session (length (listing directory.now kind)), sets output.old 0 (listing directory.now kind)) }
{
    let n = listing::listing_length(directory, kind);
    if output.len() < n {
        return answered(Answer::Overlong, session);
    }
    listing::list(directory, kind, output);
    Done {
        answer: Answer::Taken,
        session: session,
        written: n,
    }
}

// The bytes of entry i.
fn print_entry(
    session: Session,
    store: &[u8],
    links: &[u16],
    directory: &[u8],
    i: usize,
    output: &mut [u8],
) -> Done
    ensures { (result, output.new) ≡ settles (answer_of (row Overlong (exceeds (content_at (world [] store.now links.now directory.now []) i) (length output.old)) ∷ [])) session output.old (done Taken session (length (content_at (world [] store.now links.now directory.now []) i)), sets output.old 0 (content_at (world [] store.now links.now directory.now []) i)) }
{
    let reader = contents::reader(links, directory, i);
    let n = reader.left;
    if output.len() < n {
        return answered(Answer::Overlong, session);
    }
    contents::copy_out(store, links, directory, i, output);
    Done {
        answer: Answer::Taken,
        session: session,
        written: n,
    }
}

// FP: "writes the form's bytes."
fn print_form(
    session: Session,
    line: &[u8],
    n: Named,
    store: &[u8],
    links: &[u16],
    directory: &[u8],
    output: &mut [u8],
) -> Done
    ensures { ran result (world [] store.now links.now directory.now []) output.new ≡ listing_by (world [] store.now links.now directory.now []) session line.now output.old (ListForm n) }
{
    let found = entry_of(directory, false, line, n);
    if is_missing(n, found) {
        return answered(Answer::Missing, session);
    }
    match found {
        Some(i) => print_entry(session, store, links, directory, i, output),
        None => taken(session),
    }
}

// A listing.
pub fn run_listing(
    session: Session,
    command: ListingCommand,
    line: &[u8],
    store: &[u8],
    links: &[u16],
    directory: &[u8],
    output: &mut [u8],
) -> Done
    ensures { ran result (world [] store.now links.now directory.now []) output.new ≡ listing_by (world [] store.now links.now directory.now []) session line.now output.old command }
{
    match command {
        ListingCommand::Forms => list_names(session, directory, 1, output),
        ListingCommand::Pictures => list_names(session, directory, 2, output),
        ListingCommand::Form(n) => print_form(session, line, n, store, links, directory, output),
    }
}
