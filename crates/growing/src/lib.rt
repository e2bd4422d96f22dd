// What is stored grows (paper 01): a recorded line is put behind its form, and a picture is kept whole. Each byte that the portions so far do not hold takes
// the lowest free portion, which is hung behind the last in the links. Each move is one equation over store, links and directory, on any memory; whether there
// is room is asked before, of the number of free portions (crates `room` and `full`).
#![tactic(auto)]

ghost use Rattle.std.specs.Prelude.{◌≡◌, ◌+◌, ◌*◌, ◌<◌, set};
ghost use Rattle.store.specs.Chain.{bytes_a_portion};
ghost use Rattle.store.specs.Entry.{size_limit};
ghost use Rattle.memory.specs.Memory.{memory};
ghost use Rattle.growing.specs.Grow.{next_last, next_links, growing, put_all, with_size, grown};
ghost use Rattle.growing.specs.Keep.{kept};

use memory::{put_entry, put_link};
use store::{BYTES_A_PORTION, END_LINK};

// The portion that the next byte goes to, of what is size bytes long and ends in portion last: where that is full, the lowest free one is hung behind.
fn place(links: &mut [u16], last: usize, size: usize) -> usize
    ensures last { result ≡ next_last links.old last size }
    ensures links { links.new ≡ next_links links.old last size }
{
    if size % BYTES_A_PORTION != 0 {
        return last;
    }
    if size == 0 {
        return last;
    }
    let q = room::lowest_portion(links);
    put_link(links, last, (q % 65536) as u16);
    put_link(links, q, END_LINK);
    q
}

// Stores a byte at a place of portion p.
fn put_in(store: &mut [u8], p: usize, at: usize, b: u8)
    ensures { store.new ≡ set store.old (p * bytes_a_portion + at) b }
{
    if store.len() / BYTES_A_PORTION < p {
        return;
    }
    let from = p * BYTES_A_PORTION;
    if store.len() - from <= at {
        return;
    }
    store[from + at] = b;
}

// Puts bytes behind what is size bytes long and ends in portion last.
fn fill(store: &mut [u8], links: &mut [u16], last: usize, size: usize, bytes: &[u8])
    requires { size < size_limit }
    ensures { (store.new ≡ (put_all (growing store.old links.old last size) bytes.now).store) × (links.new ≡ (put_all (growing store.old links.old last size) bytes.now).links) }
{
    let mut at = last;
    let mut n = size;
    for b in bytes {
        at = place(links, at, n);
        put_in(store, at, n % BYTES_A_PORTION, *b);
        n += 1;
    }
}

fn put_size(directory: &mut [u8], i: usize, n: usize)
    ensures { directory.new ≡ with_size directory.old i n }
{
    let bytes = [
        (n % 256) as u8,
        (n / 256 % 256) as u8,
        (n / 65536 % 256) as u8,
        (n / 16777216 % 256) as u8,
    ];
    put_entry(directory, i, 12, &bytes);
}

// Puts bytes behind entry i.
pub fn grow(store: &mut [u8], links: &mut [u16], directory: &mut [u8], i: usize, bytes: &[u8])
    ensures { memory store.new links.new directory.new ≡ grown (memory store.old links.old directory.old) i bytes.now }
{
    let s = store::size_at(directory, i);
    let last = store::last_at(links, directory, i);
    fill(store, links, last, s, bytes);
    put_size(directory, i, s + bytes.len());
}

// Keeps bytes whole under a name, as an entry of a kind.
pub fn keep(
    store: &mut [u8],
    links: &mut [u16],
    directory: &mut [u8],
    kind: u8,
    title: [u8; 8],
    bytes: &[u8],
)
    ensures { memory store.new links.new directory.new ≡ kept (memory store.old links.old directory.old) kind title bytes.now }
{
    let i = starting::begin(links, directory, kind, title);
    grow(store, links, directory, i, bytes);
}
