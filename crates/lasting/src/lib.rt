// The store that lasts: session, values, background, store, links and directory in one file.
//
// specs/File.antt has the file byte by byte: a head that names its version and sizes, two slots for session and values, each on a page of its own, and
// the body. What changes session and values alone, as each label does, goes into the slot that does not hold the last state, so that a cut leaves
// that one whole (crate `slots`); any other change makes a whole new file. Head and body share a sum, and each slot has its own. `judge` says of any bytes
// whether they are such a file, and which slot holds. Opening, writing and renaming are left to the program.
#![tactic(auto)]

mod judged; // any bytes judged
mod links; // the links as bytes
mod saved; // head and body, saved and loaded again

use dots::BYTES_A_ROW;
pub use judged::{Fault, judge, rows};
pub use saved::{load_body, place, seal};
use slots::PAGE;
use store::{BYTES_A_PORTION, BYTES_AN_ENTRY, MOST_ENTRIES, MOST_PORTIONS};

// The most rows that a page may have.
pub const MOST_ROWS: usize = 4000;

// The version that is written. Files of version 1, made before there was a clock, are still read.
const VERSION: u16 = 2;

// The head, behind the bytes that name the file and the version.
const ROWS_AT: usize = 18;

const PORTIONS_AT: usize = 20;

const ENTRIES_AT: usize = 22;

// The body, behind the pages of head and slots: directory, links, store, background.
pub const BODY_AT: usize = 3 * PAGE;

pub const DIRECTORY_BYTES: usize = MOST_ENTRIES * BYTES_AN_ENTRY;

const LINKS_AT: usize = BODY_AT + DIRECTORY_BYTES;

const STORE_AT: usize = LINKS_AT + 2 * MOST_PORTIONS;

const STORE_BYTES: usize = MOST_PORTIONS * BYTES_A_PORTION;

const BACKGROUND_AT: usize = STORE_AT + STORE_BYTES;

const MOST_BACKGROUND: usize = MOST_ROWS * BYTES_A_ROW;
