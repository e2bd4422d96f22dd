// The links as bytes, two each.
ghost use Rattle.std.specs.Prelude.{◌≡◌, ◌<◌, get_or, set};
ghost use Rattle.std.proofs.lemmas.List.Edits.{sets};
ghost use Rattle.store.specs.Chain.{most_portions};
ghost use Rattle.lasting.specs.File.{link_bytes, links_from};

use file_parts::{put_two, two_at};
use store::MOST_PORTIONS;

fn link(links: &[u16], i: usize) -> u16
    ensures { result ≡ get_or links.now i 0 }
{
    if i < links.len() { links[i] } else { 0 }
}

// The links, two bytes each, from a place on.
pub(crate) fn put_links(file: &mut [u8], at: usize, links: &[u16])
    requires { at < 4294967296 }
    ensures { file.new ≡ sets file.old at (link_bytes most_portions 0 links.now) }
{
    for i in 0..MOST_PORTIONS {
        put_two(file, at + 2 * i, link(links, i));
    }
}

fn set_link(links: &mut [u16], i: usize, x: u16)
    ensures { links.new ≡ set links.old i x }
{
    if i < links.len() {
        links[i] = x;
    }
}

// The links again.
pub(crate) fn take_links(file: &[u8], at: usize, links: &mut [u16])
    requires { at < 4294960000 }
    ensures { links.new ≡ sets links.old 0 (links_from most_portions file.now at) }
{
    for i in 0..MOST_PORTIONS {
        set_link(links, i, two_at(file, at + 2 * i));
    }
}
