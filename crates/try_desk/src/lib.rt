// The desk of the program that makes stored calls again: what lies on it, one byte of it changed, and the line that is written of it.
//
// A call is lent the front of each slice; the digest of a line takes all of every slice, so that it shows whether a call stayed within what it was lent.
#![tactic(auto)]

mod lines; // the line of a call

pub use lines::line;

// Two bytes more than an image, a count more than two, a field more than ten; and as many rows, portions and entries as the longest call is lent.
const SESSION: usize = image::IMAGE + 2;

const COUNTS: usize = exported::COUNTS + 1;

const PAGE: usize = 42 * 76;

const PORTIONS: usize = 18;

const STORE: usize = PORTIONS * 256;

const DIRECTORY: usize = 6 * 16;

const VALUES: usize = 11 * 34;

const OUTPUT: usize = 256;

// What is lent, and the last answer.
#[derive(Clone, Copy)]
pub struct Desk {
    pub answer: u8,
    pub session: [u8; SESSION],
    pub counts: [u64; COUNTS],
    pub page: [u8; PAGE],
    pub background: [u8; PAGE],
    pub store: [u8; STORE],
    pub links: [u16; PORTIONS],
    pub directory: [u8; DIRECTORY],
    pub values: [u8; VALUES],
    pub output: [u8; OUTPUT],
}

// A desk with every byte of every slice the same, each link 257 times that, and the counts 0.
pub fn new_desk(fill: u8) -> Desk {
    let session = [fill; SESSION];
    let counts = [0u64; COUNTS];
    let page = [fill; PAGE];
    let background = [fill; PAGE];
    let store = [fill; STORE];
    let links = [fill as u16 * 257; PORTIONS];
    let directory = [fill; DIRECTORY];
    let values = [fill; VALUES];
    let output = [fill; OUTPUT];
    Desk {
        answer: 0,
        session: session,
        counts: counts,
        page: page,
        background: background,
        store: store,
        links: links,
        directory: directory,
        values: values,
        output: output,
    }
}

pub fn without_counts(d: Desk) -> Desk {
    let mut after = d;
    after.counts = [0u64; COUNTS];
    after
}

// A link with its low or its high byte changed.
fn changed_link(link: u16, high: bool, b: u8) -> u16 {
    if high {
        return link % 256 + b as u16 * 256;
    }
    link / 256 * 256 + b as u16
}

fn change_link(d: Desk, at: usize, b: u8) -> Desk {
    let mut after = d;
    let i = at / 2;
    if i < PORTIONS {
        after.links[i] = changed_link(after.links[i], at % 2 == 1, b);
    }
    after
}

fn change_session(d: Desk, at: usize, b: u8) -> Desk {
    let mut after = d;
    if at < SESSION {
        after.session[at] = b;
    }
    after
}

fn change_background(d: Desk, at: usize, b: u8) -> Desk {
    let mut after = d;
    if at < PAGE {
        after.background[at] = b;
    }
    after
}

fn change_store(d: Desk, at: usize, b: u8) -> Desk {
    let mut after = d;
    if at < STORE {
        after.store[at] = b;
    }
    after
}

fn change_directory(d: Desk, at: usize, b: u8) -> Desk {
    let mut after = d;
    if at < DIRECTORY {
        after.directory[at] = b;
    }
    after
}

fn change_value(d: Desk, at: usize, b: u8) -> Desk {
    let mut after = d;
    if at < VALUES {
        after.values[at] = b;
    }
    after
}

// One byte of a slice changed, by the number of the slice: 0 session, 4 background, 5 store, 6 links as bytes, 7 directory, 8 values.
pub fn changed(d: Desk, slice: u8, at: usize, b: u8) -> Desk {
    match slice {
        0 => change_session(d, at, b),
        4 => change_background(d, at, b),
        5 => change_store(d, at, b),
        6 => change_link(d, at, b),
        7 => change_directory(d, at, b),
        8 => change_value(d, at, b),
        _ => d,
    }
}
