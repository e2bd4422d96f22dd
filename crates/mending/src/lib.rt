// What is left of a damaged memory (paper 02, §11): "Kept forms and pictures stay byte for byte", "Portions of dropped entries are freed", and unused bytes
// "are zeroed".
//
// Which entries are kept, and how many bytes of kept content each portion holds, is known already: it comes from `verdicts` as two lists. `mend` makes of
// store, links and directory what the definition (specs/Mending.antt) says of each byte and link by itself, on any memory and any two lists. The definition
// goes byte by byte; the code zeroes what lies behind the kept bytes of a portion or an entry at once, so that one that is kept whole costs one step.
#![tactic(auto)]

ghost use Rattle.std.specs.Prelude.{◌≡◌, cond, ◌+◌, ◌-◌, ◌≤◌, ◌<◌, length, replicate};
ghost use Rattle.std.proofs.lemmas.List.Edits.{sets};
ghost use Rattle.store.specs.Entry.{bytes_an_entry};
ghost use Rattle.memory.specs.Memory.{memory};
ghost use Rattle.verdicts.specs.Verdicts.{is_kept, known};
ghost use Rattle.mending.specs.Mending.{kept_directory, kept_link, kept_links, kept_store, mended_by};

use ground::{byte, fill, less};
use store::{BYTES_A_PORTION, BYTES_AN_ENTRY, FREE_LINK, link_at};

// Zeroes a part of so many bytes behind its first n.
fn zero_behind(bytes: &mut [u8], from: usize, n: usize, many: usize)
    requires { from ≤ length bytes.old }
    ensures { bytes.new ≡ sets bytes.old (from + n) (replicate (many - n) 0) }
{
    if bytes.len() - from <= n {
        return;
    }
    fill(bytes, from + n, less(many, n), 0);
}

// Unused bytes "are zeroed". The last portion may be cut short, or nothing: the store may have any length.
fn mend_store(store: &mut [u8], fills: &[u16])
    ensures { store.new ≡ kept_store store.old fills.now }
{
    for q in 0..store.len() / BYTES_A_PORTION + 1 {
        let n = less(link_at(fills, q), 1);
        zero_behind(store, q * BYTES_A_PORTION, n, BYTES_A_PORTION);
    }
}

fn kept_link(links: &[u16], fills: &[u16], q: usize) -> u16
    requires { q < length links.now }
    ensures { result ≡ kept_link links.now fills.now q }
{
    if link_at(fills, q) == 0 {
        return FREE_LINK;
    }
    links[q]
}

// "Portions of dropped entries are freed."
fn mend_links(links: &mut [u16], fills: &[u16])
    ensures { links.new ≡ kept_links links.old fills.now }
{
    for q in 0..links.len() {
        links[q] = kept_link(links, fills, q);
    }
}

// How many bytes of entry i stay.
fn kept_of(verdicts: &[u8], i: usize) -> usize
    ensures { result ≡ cond (is_kept verdicts.now i) bytes_an_entry 0 }
{
    if byte(verdicts, i) == verdicts::KEPT {
        return BYTES_AN_ENTRY;
    }
    0
}

// Dropped entries are zeroed, and so are empty ones.
fn mend_directory(directory: &mut [u8], verdicts: &[u8])
    ensures { directory.new ≡ kept_directory directory.old verdicts.now }
{
    for i in 0..directory.len() / BYTES_AN_ENTRY + 1 {
        let n = kept_of(verdicts, i);
        zero_behind(directory, i * BYTES_AN_ENTRY, n, BYTES_AN_ENTRY);
    }
}

pub fn mend(
    store: &mut [u8],
    links: &mut [u16],
    directory: &mut [u8],
    verdicts: &[u8],
    fills: &[u16],
)
    ensures { memory store.new links.new directory.new ≡ mended_by (known verdicts.now fills.now) (memory store.old links.old directory.old) }
{
    mend_store(store, fills);
    mend_links(links, fills);
    mend_directory(directory, verdicts);
}
