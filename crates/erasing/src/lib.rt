// Entries are erased (paper 01): "room freed is used again, zeroed", and "`"*"` erases all, none included". The portions of an entry are zeroed and freed one
// after another along its chain, then the entry is zeroed in its place; no other entry moves. Each move is one equation over store, links and directory, on any
// memory.
#![tactic(auto)]

ghost use Rattle.std.specs.Prelude.{◌≡◌, not, eqb};
ghost use Rattle.cells.specs.Cell.{zeros, set_cell};
ghost use Rattle.store.specs.Chain.{bytes_a_portion};
ghost use Rattle.store.specs.Entry.{entry, kind};
ghost use Rattle.memory.specs.Memory.{memory};
ghost use Rattle.erasing.specs.Erase.{freed, erased, erased_at, erased_if, erased_all};

use ground::{least, put};
use memory::{put_entry, put_link};
use store::{BYTES_A_PORTION, BYTES_AN_ENTRY, FREE_LINK};

fn wipe(store: &mut [u8], p: usize)
    ensures { store.new ≡ set_cell bytes_a_portion store.old p (zeros bytes_a_portion) }
{
    if store.len() / BYTES_A_PORTION < p {
        return;
    }
    let blank = [0u8; BYTES_A_PORTION];
    put(store, p * BYTES_A_PORTION, &blank);
}

// Zeroes and frees n portions from p on.
fn free_chain(store: &mut [u8], links: &mut [u16], directory: &mut [u8], first: usize, n: usize)
    ensures { memory store.new links.new directory.new ≡ freed (memory store.old links.old directory.old) first n }
{
    let mut p = first;
    for _ in 0..n {
        wipe(store, p);
        let next = store::link_at(links, p);
        put_link(links, p, FREE_LINK);
        p = next;
    }
}

fn drop_entry(store: &mut [u8], links: &mut [u16], directory: &mut [u8], i: usize)
    ensures { memory store.new links.new directory.new ≡ erased (memory store.old links.old directory.old) i }
{
    let p = store::first_at(directory, i);
    let n = least(store::many_at(directory, i), links.len());
    free_chain(store, links, directory, p, n);
    let blank = [0u8; BYTES_AN_ENTRY];
    put_entry(directory, i, 0, &blank);
}

// Erases entry i, if there is one.
pub fn erase(store: &mut [u8], links: &mut [u16], directory: &mut [u8], i: usize) -> bool
    ensures answer { result ≡ not (eqb (kind (entry directory.old i)) 0) }
    ensures memory { memory store.new links.new directory.new ≡ erased_at (memory store.old links.old directory.old) i }
{
    if store::kind_at(directory, i) == 0 {
        return false;
    }
    drop_entry(store, links, directory, i);
    true
}

fn erase_if(store: &mut [u8], links: &mut [u16], directory: &mut [u8], picture: bool, i: usize)
    ensures { memory store.new links.new directory.new ≡ erased_if picture (memory store.old links.old directory.old) i }
{
    if store::is_of_kind(picture, store::kind_at(directory, i)) {
        drop_entry(store, links, directory, i);
    }
}

// Erases all entries of a kind, pictures or forms.
pub fn erase_all(store: &mut [u8], links: &mut [u16], directory: &mut [u8], picture: bool)
    ensures { memory store.new links.new directory.new ≡ erased_all picture (memory store.old links.old directory.old) }
{
    let n = directory.len() / BYTES_AN_ENTRY;
    for i in 0..n {
        erase_if(store, links, directory, picture, i);
    }
}
