// Room in the store (paper 01): "New entries and portions are the lowest free". Where the next portion and the next entry are, from links and directory; and
// whether an entry is empty or something stored can grow, from the directory and the number of free portions alone (paper 02, §6). All of it on any memory.
// Portions and entries run out apart (§5), so each is asked for by itself.
#![tactic(auto)]

ghost use Rattle.std.specs.Prelude.{◌≡◌};
ghost use Rattle.store.specs.Entry.{entry};
ghost use Rattle.room.specs.Room.{lowest_portion, lowest_entry, empty_count, has_entry, can_grow};

use store::{BYTES_AN_ENTRY, MOST_SIZE};

// The lowest free portion; as many as there are where none is free.
pub fn lowest_portion(links: &[u16]) -> usize
    ensures { result ≡ lowest_portion links.now }
{
    finding::lowest_free(links).unwrap_or(links.len())
}

// The lowest empty entry; as many as there are where none is empty.
pub fn lowest_entry(directory: &[u8]) -> usize
    ensures { result ≡ lowest_entry directory.now }
{
    finding::lowest_empty(directory).unwrap_or(directory.len() / BYTES_AN_ENTRY)
}

// How many entries are empty.
pub fn empty_count(directory: &[u8]) -> usize
    ensures { result ≡ empty_count directory.now }
{
    let entries = directory.len() / BYTES_AN_ENTRY;
    let mut n: usize = 0;
    for i in 0..entries {
        if store::kind_at(directory, i) == 0 {
            n += 1;
        }
    }
    n
}

// Whether an entry is empty.
pub fn has_entry(directory: &[u8]) -> bool
    ensures { result ≡ has_entry directory.now }
{
    lowest_entry(directory) < directory.len() / BYTES_AN_ENTRY
}

// Whether so many bytes can be put behind entry i, with so many portions free.
pub fn can_grow(free: usize, directory: &[u8], i: usize, more: usize) -> bool
    ensures { result ≡ can_grow free (entry directory.now i) more }
{
    if store::kind_at(directory, i) == 0 {
        return false;
    }
    let s = store::size_at(directory, i);
    if MOST_SIZE - s < more {
        return false;
    }
    store::needed_for(s + more) - store::needed_for(s) <= free
}
