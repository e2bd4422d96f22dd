// "One call reads one command at the front of the input and hands back the unread rest as a part of that input."
ghost use Rattle.std.specs.Prelude.{◌≡◌, []};
ghost use Rattle.answers.specs.Answers.{answer_of};
ghost use Rattle.lent.specs.Lent.{world, wrong_lent};
ghost use Rattle.commands.specs.Running.{line_by};
ghost use Rattle.unread.specs.Front.{line_of, more_of};
ghost use Rattle.calls.specs.Outcomes.{after, outcome};
ghost use Rattle.calls.specs.Table.{entry_rows};
ghost use Rattle.calls.specs.Station.{read_as, commanded};

use answers::{Answer, is_taken};
use calls::Outcome;
use parts::first;
use results::Done;
use session::Session;
use sound::entry_answer;
use unread::{front_answer, front_read, is_line, line_in, more_of};

// 1, 2 and 3.
fn first_answer(
    session: Session,
    font: &[u8],
    background: &[u8],
    store: &[u8],
    links: &[u16],
    directory: &[u8],
    values: &[u8],
) -> Answer
    ensures { result ≡ answer_of (entry_rows (wrong_lent (world background.now store.now links.now directory.now values.now)) font.now session (world background.now store.now links.now directory.now values.now) []) }
{
    let wrong = lent::lengths_wrong(
        background.len(),
        store.len(),
        links.len(),
        directory.len(),
        values.len(),
    );
    entry_answer(
        wrong, session, font, background, store, links, directory, values,
    )
}

// A line that was run, when k bytes of the input were read.
fn ran(d: Done, k: usize) -> Outcome
    ensures { result ≡ outcome d.answer d.session k d.written }
{
    let answer = d.answer;
    let after = d.session;
    Outcome {
        answer: answer,
        session: after,
        read: k,
        written: d.written,
    }
}

// "Others read the line, and for a well-formed GM also its n bytes, taken or refused": n bytes of line, k bytes read.
fn on_line(
    session: Session,
    font: &[u8],
    background: &mut [u8],
    store: &mut [u8],
    links: &mut [u16],
    directory: &mut [u8],
    values: &mut [u8],
    output: &mut [u8],
    input: &[u8],
    n: usize,
    k: usize,
) -> Outcome
    ensures { after result (world background.new store.new links.new directory.new values.new) output.new ≡ read_as k (line_by font.now (world background.old store.old links.old directory.old values.old) session (line_of input.now n) (more_of input.now n k) output.old) }
{
    let line = first(input, n);
    let more = more_of(input, n, k);
    let d = commands::run_line(
        session, font, line, more, background, store, links, directory, values, output,
    );
    ran(d, k)
}

// A call that wrote nothing.
fn outcome(answer: Answer, session: Session, read: usize) -> Outcome
    ensures { result ≡ outcome answer session read 0 }
{
    Outcome {
        answer: answer,
        session: session,
        read: read,
        written: 0,
    }
}

pub fn command(
    session: Session,
    font: &[u8],
    background: &mut [u8],
    store: &mut [u8],
    links: &mut [u16],
    directory: &mut [u8],
    values: &mut [u8],
    output: &mut [u8],
    input: &[u8],
) -> Outcome
    ensures { after result (world background.new store.new links.new directory.new values.new) output.new ≡ commanded session font.now (world background.old store.old links.old directory.old values.old) output.old input.now }
{
    let a = first_answer(session, font, background, store, links, directory, values);
    if !is_taken(a) {
        return outcome(a, session, 0);
    }
    let f = front::input::front(input);
    let read = front_read(f);
    if is_line(f) {
        return on_line(
            session,
            font,
            background,
            store,
            links,
            directory,
            values,
            output,
            input,
            line_in(f),
            read,
        );
    }
    outcome(front_answer(f), session, read)
}
