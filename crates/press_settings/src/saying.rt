// What is said: on standard output what was done, on standard error what was refused or failed.
//
// Where nobody takes it, what is said is lost, and the run goes on: the labels that it draws and the store that it keeps are worth more.
use crate::{Machine, Name, Settings, Told};
use answers::{Answer, is_full, is_taken, points};
use ground::front;
use session::Session;
use std::fmt::InlineText;
use std::io;

pub fn say(rt: &impl Print, s: Settings, text: &[u8]) {
    if !s.quiet {
        let _ = rt.write_all(text);
    }
}

pub fn complain(rt: &impl Machine, text: &[u8]) {
    let _ = rt.write_error(text);
}

// The system's words for what went wrong, without the number that std writes behind them.
fn reason(text: &str) -> &str {
    match text.split_once(" (os error ") {
        Some((words, _)) => words,
        None => text,
    }
}

// `press: WHAT NAME: why`, where a call of the system failed.
pub fn failed(rt: &impl Machine, what: &[u8], name: &[u8], why: io::Error) -> Told {
    let text = InlineText::<128>::of(why);
    complain(rt, b"press: ");
    complain(rt, what);
    complain(rt, name);
    complain(rt, b": ");
    complain(rt, reason(text.as_str()).as_bytes());
    complain(rt, b"\n");
    Told
}

// `press: NAME WHAT`
pub fn wrong(rt: &impl Machine, name: &[u8], what: &[u8]) -> Told {
    complain(rt, b"press: ");
    complain(rt, name);
    complain(rt, what);
    Told
}

// The name of the file at hand, where there are several.
fn file_name(rt: &impl Machine, s: Settings, file: Option<usize>) -> Option<Name> {
    match file {
        Some(i) if s.are_several() => Some(Name::argument(rt, i)),
        _ => None,
    }
}

// A line about what was taken, behind the name of its file.
fn say_of(rt: &impl Machine, s: Settings, file: Option<usize>, text: &[u8]) {
    if let Some(name) = file_name(rt, s, file) {
        say(rt, s, name.bytes());
        say(rt, s, b": ");
    }
    say(rt, s, text);
}

// A line about a refusal, behind the name of its file.
fn complain_of(rt: &impl Machine, s: Settings, file: Option<usize>, text: &[u8]) {
    if let Some(name) = file_name(rt, s, file) {
        complain(rt, name.bytes());
        complain(rt, b": ");
    }
    complain(rt, text);
}

// The mark under a refused line, where its answer points to a place.
fn point(rt: &impl Machine, s: Settings, file: Option<usize>, k: usize, a: Answer) {
    if points(a) {
        let mut text = [0u8; 512];
        let n = words::mark(k, a, &mut text);
        complain_of(rt, s, file, front(&text, n));
    }
}

// How much is left of portions and entries, under a line that is refused because one of them ran out.
pub fn left(
    rt: &impl Machine,
    s: Settings,
    file: Option<usize>,
    k: usize,
    a: Answer,
    links: &[u16],
    directory: &[u8],
) {
    if is_full(a) {
        let mut text = [0u8; 512];
        let n = words::left(k, links, directory, &mut text);
        complain_of(rt, s, file, front(&text, n));
    }
}

// The line of a call.
pub fn answer(
    rt: &impl Machine,
    s: Settings,
    file: Option<usize>,
    k: usize,
    a: Answer,
    line: &[u8],
) {
    let mut text = [0u8; 512];
    let n = words::said(k, a, front(line, 255), &mut text);
    if is_taken(a) {
        say_of(rt, s, file, front(&text, n));
    } else {
        complain_of(rt, s, file, front(&text, n));
        point(rt, s, file, k, a);
    }
}

// The line of a label.
pub fn label(rt: &impl Print, s: Settings, after: Session, name: &[u8], page: &[u8]) {
    let mut text = [0u8; 4352];
    let drawn = after.drawn as usize;
    let all = drawn + after.owed as usize;
    let width = after.width as usize;
    let rows = after.length as usize;
    let black = pages::black_dots(page);
    let k = reports::label(drawn, all, name, width, rows, black, &mut text);
    say(rt, s, front(&text, k));
}

// The last line.
pub fn sum(rt: &impl Print, s: Settings, taken: usize, refused: usize, labels: usize) {
    let mut text = [0u8; 128];
    let k = reports::sum(taken, refused, labels, &mut text);
    say(rt, s, front(&text, k));
}
