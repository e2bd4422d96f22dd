// Commands, one after the other, from standard input or from file after file.
//
// Input passes through a window that is filled again (crate `intake`); what a command does is crate `station`. What a command left is saved before it is
// said, and a line that is too long is skipped to its end.
#![tactic(auto)]

use answers::{Answer, is_taken};
use front::Front;
use ground::{capped_sum, front, least};
use press_settings::saying::{complain, failed, say};
use press_settings::system::open_read;
use press_settings::{Machine, Name, Settings, Told, saying};
use press_store::rooms::Lent;
use press_store::{Run, Source, rooms};
use session::Session;
use std::io;
use std::io::Read;

// What a step led to: a command at the front of what is read, the way to one, or the end of all input.
#[derive(Clone, Copy, PartialEq, Eq)]
pub enum Step {
    Command,
    Onward,
    End,
}

// The next input: the next file, or standard input where no file is named.
fn next_input(rt: &impl Machine, s: Settings, run: &mut Run) -> Result<Step, Told> {
    if run.from.is_some() {
        run.from = None;
        run.file = run.file.map(|file| capped_sum(file, 1));
        if s.count <= run.file.unwrap_or(s.count) {
            return Ok(Step::End);
        }
    }
    let from = match run.file {
        Some(file) => opened(rt, file)?,
        None => Source::Input,
    };
    begin(run, from);
    Ok(Step::Onward)
}

// A file of the command line.
fn opened(rt: &impl Machine, file: usize) -> Result<Source, Told> {
    let name = Name::argument(rt, file);
    match open_read(rt, name.bytes()) {
        Ok(file) => Ok(Source::Named(file)),
        Err(why) => Err(failed(rt, b"cannot open ", name.bytes(), why)),
    }
}

// The run at the start of an input.
fn begin(run: &mut Run, from: Source) {
    run.from = Some(from);
    run.start = 0;
    run.end = 0;
    run.ended = false;
    run.skipping = false;
    run.line = 0;
}

fn read_some(rt: &impl Machine, from: &mut Option<Source>, room: &mut [u8]) -> io::Result<usize> {
    match from {
        None => Ok(0),
        Some(Source::Input) => rt.read_input(room),
        Some(Source::Named(file)) => file.read(room),
    }
}

// More bytes in the window, or the end of the input, which is also where it cannot be read.
fn refill(rt: &impl Machine, run: &mut Run, window: &mut [u8]) {
    let n = intake::shift(window, run.start, run.end);
    run.start = 0;
    run.end = n;
    run.ended = true;
    if window.len() < n {
        return;
    }
    if let Ok(got) = read_some(rt, &mut run.from, &mut window[n..]) {
        let more = least(got, window.len());
        run.end = capped_sum(n, more);
        run.ended = more == 0;
    }
}

// A line that was refused, and what is left of the store where there is no room in it.
fn refused(
    rt: &impl Machine,
    s: Settings,
    run: &mut Run,
    answer: Answer,
    line: &[u8],
    lent: &Lent,
) {
    run.refused = capped_sum(run.refused, 1);
    saying::answer(rt, s, run.file, run.line, answer, line);
    saying::left(
        rt,
        s,
        run.file,
        run.line,
        answer,
        lent.links,
        lent.directory,
    );
}

// A line that was taken, and saved where there is a store.
fn taken(rt: &impl Machine, s: Settings, run: &mut Run, answer: Answer, line: &[u8]) {
    run.taken = capped_sum(run.taken, 1);
    saying::answer(rt, s, run.file, run.line, answer, line);
}

// What is left of a line that was too long.
fn skip(run: &mut Run, unread: &[u8]) {
    let n = intake::line_length(unread);
    if n < unread.len() {
        run.start = capped_sum(run.start, n + 1);
        run.skipping = false;
    } else {
        run.start = run.end;
    }
}

// Whether the window has to be filled before a command can be read.
fn is_wanting(run: &Run, unread: &[u8]) -> bool {
    if run.ended {
        return false;
    }
    if unread.is_empty() {
        return true;
    }
    if run.skipping {
        return false;
    }
    matches!(front::input::front(unread), Front::Short)
}

// One step towards the next command: the next input, more bytes, or the rest of a line that was too long.
pub fn ahead(
    rt: &impl Machine,
    s: Settings,
    run: &mut Run,
    window: &mut [u8],
) -> Result<Step, Told> {
    if is_wanting(run, intake::unread(window, run.start, run.end)) {
        refill(rt, run, window);
        return Ok(Step::Onward);
    }
    let unread = intake::unread(window, run.start, run.end);
    if unread.is_empty() {
        return next_input(rt, s, run);
    }
    if run.skipping {
        skip(run, unread);
        return Ok(Step::Onward);
    }
    Ok(Step::Command)
}

// Whether a line is empty or a comment: nothing is said of it.
fn is_blank(line: &[u8]) -> bool {
    line.is_empty() || line[0] == b';'
}

// The run after a call that read so many bytes of what is unread.
fn go_on(run: &mut Run, session: Session, read: usize, line: &[u8], unread: &[u8]) {
    run.session = session;
    run.line = capped_sum(run.line, 1);
    run.start = if read == 0 {
        run.end
    } else {
        capped_sum(run.start, read)
    };
    run.skipping = 255 < line.len() && line.len() == unread.len();
}

// What a line did: saved, said and counted.
fn settled(
    rt: &impl Machine,
    s: Settings,
    run: &mut Run,
    answer: Answer,
    line: &[u8],
    lent: &Lent,
    file: &mut [u8],
) -> Result<(), Told> {
    if !is_taken(answer) {
        refused(rt, s, run, answer, line, lent);
        return Ok(());
    }
    if is_blank(line) {
        return Ok(());
    }
    if let Err(told) = press_store::save(rt, s, run, lent, file) {
        complain(
            rt,
            b"press: the last line read is not kept; the store is as it was before it\n",
        );
        return Err(told);
    }
    taken(rt, s, run, answer, line);
    Ok(())
}

// One command at the front of the window: done, saved, said and counted.
pub fn command(
    rt: &impl Machine,
    s: Settings,
    run: &mut Run,
    font: &[u8],
    background: &mut [u8],
    store: &mut [u8],
    links: &mut [u16],
    directory: &mut [u8],
    values: &mut [u8],
    window: &[u8],
    file: &mut [u8],
) -> Result<(), Told> {
    let unread = intake::unread(window, run.start, run.end);
    let line = front(unread, intake::line_length(unread));
    let mut output = rooms::portions();
    let o = station::command(
        run.session,
        font,
        background,
        store,
        links,
        directory,
        values,
        &mut output,
        unread,
    );
    go_on(run, o.session, o.read, line, unread);
    let lent = Lent {
        background,
        store,
        links,
        directory,
        values,
    };
    let kept = settled(rt, s, run, o.answer, line, &lent, file);
    say(rt, s, front(&output, o.written));
    kept
}
