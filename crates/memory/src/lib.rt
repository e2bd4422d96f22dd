// Store, links and directory together, as the moves change them: an entry is started, grown, finished or erased, and opening clears all. Each move is one
// equation over the three lists, on any memory. Here are the record of the three, and the stores into links and directory that all moves share; past the
// end they do nothing.
#![tactic(auto)]

ghost use Rattle.std.specs.Prelude.{◌≡◌, ◌+◌, ◌*◌, set};
ghost use Rattle.std.proofs.lemmas.List.Edits.{sets};
ghost use Rattle.store.specs.Entry.{bytes_an_entry};

use ground::put;
use store::BYTES_AN_ENTRY;

// Stores a link of portion p.
pub fn put_link(links: &mut [u16], p: usize, v: u16)
    ensures { links.new ≡ set links.old p v }
{
    if p < links.len() {
        links[p] = v;
    }
}

// Stores bytes in entry i, from place o on.
pub fn put_entry(directory: &mut [u8], i: usize, o: usize, bytes: &[u8])
    ensures { directory.new ≡ sets directory.old (i * bytes_an_entry + o) bytes.now }
{
    if directory.len() / BYTES_AN_ENTRY < i {
        return;
    }
    let from = i * BYTES_AN_ENTRY;
    if directory.len() - from <= o {
        return;
    }
    put(directory, from + o, bytes);
}
