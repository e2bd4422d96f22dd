// Will it fit? Paper 02, §7: "A new call takes kind, name and size and gives the answer that GM, with a legal picture of that size, or FS would give if
// sent then, without reading the bytes of any form or picture."
//
// `fit_answer` gives the first row that applies of the section's table (specs/Fits.antt), for any number of labels owed, any links and any directory: "It does not
// look for soundness". It is lent nothing that it could change, and no store, so that it cannot read what is stored. That it is the answer of FS and of GM on every
// sound memory is proved in crate `demands`.
#![tactic(auto)]

ghost use Rattle.std.specs.Prelude.{◌≡◌};
ghost use Rattle.answers.specs.Answers.{answer_of};
ghost use Rattle.fits.specs.Fits.{lent_wrong, size_wrong, limits_wrong, new_size, place_rows, fit_rows};

mod names; // names that may be asked for, and the entries that bear them

use answers::Answer;
use full::full_answer;
use ground::either;
use lent::{directory_wrong, links_wrong};

// The kinds that are asked for, as a directory has them.
pub const FORM: u8 = 1;

pub const PICTURE: u8 = 2;

// "n 1..32768".
const MOST_PICTURE: u64 = 32768;

// Whether there may not be so many links, or so many bytes of directory.
fn lent_wrong(links: usize, directory: usize) -> bool
    ensures { result ≡ lent_wrong links directory }
{
    let l = links_wrong(links);
    let d = directory_wrong(directory);
    either(l, d)
}

fn size_wrong(kind: u8, size: u64) -> bool
    ensures { result ≡ size_wrong kind size }
{
    if kind == PICTURE {
        return either(size == 0, MOST_PICTURE < size);
    }
    false
}

fn limits_wrong(kind: u8, name: &[u8], size: u64) -> bool
    ensures { result ≡ limits_wrong kind name.now size }
{
    let known = either(kind == FORM, kind == PICTURE);
    let n = names::name_wrong(name);
    let s = size_wrong(kind, size);
    either(!known, either(n, s))
}

// How many bytes the new entry has: a form has none at first.
fn new_size(kind: u8, size: u64) -> usize
    ensures { result ≡ new_size kind size }
{
    if kind == PICTURE { size as usize } else { 0 }
}

// From [9] on: what becomes of a name and a size within their limits while nothing is owed.
fn place_answer(links: &[u16], directory: &[u8], kind: u8, name: &[u8], size: u64) -> Answer
    ensures { result ≡ answer_of (place_rows links.now directory.now kind name.now size) }
{
    if finding::recording(directory).is_some() {
        return Answer::Misplaced;
    }
    if names::user(directory, kind == PICTURE, name).is_some() {
        return Answer::InUse;
    }
    full_answer(store::free_count(links), directory, new_size(kind, size))
}

// What FS (kind 1) with this name, or GM (kind 2) with it and a legal picture of this size, would be answered.
pub fn fit_answer(
    owed: u16,
    links: &[u16],
    directory: &[u8],
    kind: u8,
    name: &[u8],
    size: u64,
) -> Answer
    ensures { result ≡ answer_of (fit_rows owed links.now directory.now kind name.now size) }
{
    if lent_wrong(links.len(), directory.len()) {
        return Answer::Lengths;
    }
    if limits_wrong(kind, name, size) {
        return Answer::Limits(0);
    }
    if 0 < owed {
        return Answer::Owing;
    }
    place_answer(links, directory, kind, name, size)
}
