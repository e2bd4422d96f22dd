// What is said of each entry of a damaged memory (paper 02, §11): "one line for each entry not of kind 0, in directory order: .. `kept` or the first reason to
// drop it: `name`, `chain`, `size`, `shared` or `content`".
//
// `judge` says it of every entry, in order, of any store, links and directory, and changes none of them: it fills two lists, a verdict for each entry and, for
// each portion, whether a kept entry has it and how many bytes of it (specs/Verdicts.antt). What is left of the memory follows from these two (`mending`), and the
// lines too (`verdict_list`). That an entry is kept exactly when the section says so, and that what is left is sound, is proved in `mended`.
#![tactic(auto)]

ghost use Rattle.std.specs.Prelude.{◌≡◌};
ghost use Rattle.store.specs.Entry.{entries, entry};
ghost use Rattle.memory.specs.Memory.{memory};
ghost use Rattle.verdicts.specs.Verdicts.{known, wrong_content, verdict, noted, judged};

mod chains; // walks along an entry's chain: chain, size, shared, and the note
mod names; // the entry's name and kind: name

use store::BYTES_AN_ENTRY;

// The verdicts: nothing is said of an empty entry, one is kept, or there is a reason to drop it.
pub const UNSAID: u8 = 0;

pub const KEPT: u8 = 1;

pub const FOR_NAME: u8 = 2;

pub const FOR_CHAIN: u8 = 3;

pub const FOR_SIZE: u8 = 4;

pub const FOR_SHARED: u8 = 5;

pub const FOR_CONTENT: u8 = 6;

// "Unfinished forms are dropped for content when no earlier reason holds".
fn wrong_content(store: &[u8], links: &[u16], directory: &[u8], i: usize) -> bool
    ensures { result ≡ wrong_content (memory store.now links.now directory.now) i }
{
    if store::kind_at(directory, i) == 3 {
        return true;
    }
    !content_check::content_at(store, links, directory, i)
}

// "`kept` or the first reason to drop it".
fn verdict(
    store: &[u8],
    links: &[u16],
    directory: &[u8],
    verdicts: &[u8],
    fills: &[u16],
    i: usize,
) -> u8
    ensures { result ≡ verdict (memory store.now links.now directory.now) (known verdicts.now fills.now) i }
{
    if store::kind_at(directory, i) == 0 {
        return UNSAID;
    }
    if names::wrong_name(directory, verdicts, i) {
        return FOR_NAME;
    }
    let first = store::first_at(directory, i);
    let n = chains::walk_length(links, first);
    if n == 0 {
        return FOR_CHAIN;
    }
    if chains::wrong_size(directory, i, n) {
        return FOR_SIZE;
    }
    if chains::shares(links, fills, first, n) {
        return FOR_SHARED;
    }
    if wrong_content(store, links, directory, i) {
        return FOR_CONTENT;
    }
    KEPT
}

// Notes the verdict on entry i, and the portions of a kept one, so that later entries with one of them are dropped as shared.
fn note(links: &[u16], directory: &[u8], i: usize, v: u8, verdicts: &mut [u8], fills: &mut [u16])
    ensures { known verdicts.new fills.new ≡ noted links.now (entry directory.now i) (known verdicts.old fills.old) i v }
{
    ground::put_byte(verdicts, i, v);
    if v != KEPT {
        return;
    }
    let first = store::first_at(directory, i);
    let n = chains::walk_length(links, first);
    let size = store::size_at(directory, i);
    chains::fill_chain(links, first, n, size, fills);
}

// "in directory order": each entry is judged by what was said of those before it.
pub fn judge(store: &[u8], links: &[u16], directory: &[u8], verdicts: &mut [u8], fills: &mut [u16])
    ensures { known verdicts.new fills.new ≡ judged (memory store.now links.now directory.now) (known verdicts.old fills.old) (entries directory.now) }
{
    let n = directory.len() / BYTES_AN_ENTRY;
    for i in 0..n {
        let v = verdict(store, links, directory, verdicts, fills, i);
        note(links, directory, i, v, verdicts, fills);
    }
}
