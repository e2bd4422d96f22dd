// What the entries of the store hold (paper 01, "What is lent"): the content of an entry is its size's bytes, along its chain. A reader stands at a place of
// a content and goes on byte by byte; `copy_out` copies a whole content, a portion at a time. Every function answers on any memory: past the end 0 is read,
// and a damaged size is read no further than all portions reach. Lines of a content are read in `content_lines`.
#![tactic(auto)]

ghost use Rattle.std.specs.Prelude.{◌≡◌, ◌+◌, ◌-◌, ◌*◌, ◌≤◌, min, length, get_or};
ghost use Rattle.std.proofs.lemmas.List.Edits.{sets};
ghost use Rattle.store.specs.Chain.{bytes_a_portion, last_place};
ghost use Rattle.store.specs.Entry.{entry};
ghost use Rattle.contents.specs.Content.{portion_after, place_after, extent, content, cursor_at};
ghost use Rattle.contents.specs.Run.{copied};

use ground::least;
use store::BYTES_A_PORTION;

// The place of a portion's last byte.
pub const LAST_PLACE: usize = 255;

// Where a reader stands: a portion, a place in it, and how many bytes are left.
#[derive(Clone, Copy)]
pub struct Cursor {
    pub portion: usize,
    pub at: usize,
    pub left: usize,
}

// The byte at place `at` of portion p.
pub fn byte_at(store: &[u8], p: usize, at: usize) -> u8
    ensures { result ≡ get_or store.now (p * bytes_a_portion + at) 0 }
{
    if store.len() / BYTES_A_PORTION < p {
        return 0;
    }
    let from = p * BYTES_A_PORTION;
    if store.len() - from <= at {
        return 0;
    }
    store[from + at]
}

pub fn portion_after(links: &[u16], p: usize, at: usize) -> usize
    ensures { result ≡ portion_after links.now p at }
{
    if at < LAST_PLACE {
        return p;
    }
    store::link_at(links, p)
}

pub fn place_after(at: usize) -> usize
    ensures { result ≡ place_after at }
{
    if at < LAST_PLACE { at + 1 } else { 0 }
}

// How many bytes of entry i are read.
fn extent_at(links: &[u16], directory: &[u8], i: usize) -> usize
    ensures { result ≡ extent links.now (entry directory.now i) }
{
    let s = store::size_at(directory, i);
    if s / BYTES_A_PORTION < links.len() {
        return s;
    }
    links.len() * BYTES_A_PORTION
}

// A reader at the start of entry i.
pub fn reader(links: &[u16], directory: &[u8], i: usize) -> Cursor
    ensures { result ≡ cursor_at links.now directory.now i }
{
    let p = store::first_at(directory, i);
    let left = extent_at(links, directory, i);
    Cursor {
        portion: p,
        at: 0,
        left,
    }
}

// Copies a run of bytes from place `at` of portion p on to place k of `out`, at most so many and none but those before the portion's last: how many
// bytes that are. A step that goes on from there may leave the portion.
fn copy_run(store: &[u8], p: usize, at: usize, most: usize, out: &mut [u8], k: usize) -> usize
    requires { k + most ≤ length out.old }
    ensures { (result ≤ most) × (result ≤ last_place - at) × (out.new ≡ copied out.old k store.now (p * bytes_a_portion + at) result) }
{
    if store.len() / BYTES_A_PORTION <= p {
        return 0;
    }
    if LAST_PLACE <= at {
        return 0;
    }
    let from = p * BYTES_A_PORTION + at;
    let n = least(most, LAST_PLACE - at);
    for j in 0..n {
        out[k + j] = store[from + j];
    }
    n
}

// Copies the content of entry i to the front of `out`, as much of it as fits: how many bytes that are.
pub fn copy_out(store: &[u8], links: &[u16], directory: &[u8], i: usize, out: &mut [u8]) -> usize
    ensures copied { out.new ≡ sets out.old 0 (content store.now links.now directory.now i) }
    ensures length { result ≡ min (length (content store.now links.now directory.now i)) (length out.old) }
{
    let mut p = store::first_at(directory, i);
    let n = least(extent_at(links, directory, i), out.len());
    let mut at: usize = 0;
    let mut k: usize = 0;
    // A while: a turn goes on by a run of bytes and the byte behind it, as many as lie in the portion.
    while k < n {
        let r = copy_run(store, p, at, n - k - 1, out, k);
        k += r;
        at += r;
        out[k] = byte_at(store, p, at);
        p = portion_after(links, p, at);
        at = place_after(at);
        k += 1;
    }
    n
}
