// An entry's chain: how many portions it has, whether that is what the size asks for, whether a kept entry has one of them, and the note on those of a kept one.
// Each is a walk along the links of no more steps than there are links, and nothing of a chain is held but the portion where the walk stands.
ghost use Rattle.std.specs.Prelude.{◌≡◌, not, ◌&&◌, ◌||◌, length, eqb, ltb};
ghost use Rattle.store.specs.Chain.{needed, chain};
ghost use Rattle.store.specs.Entry.{entry, kind, size};
ghost use Rattle.content_check.specs.Contents.{most_picture};
ghost use Rattle.verdicts.specs.Verdicts.{walked, meets, filled};

use ground::{least, less};
use memory::put_link;
use store::{BYTES_A_PORTION, END_LINK};

// "a picture over 32768".
const MOST_PICTURE: usize = 32768;

// How many portions the chain from a first one on has; 0 where it is none. A walk that has not ended after as many steps as there are links never does.
pub fn walk_length(links: &[u16], first: usize) -> usize
    ensures { result ≡ walked links.now first 0 (length links.now) }
{
    let mut p = first;
    for k in 0..links.len() {
        if links.len() <= p {
            return 0;
        }
        p = links[p] as usize;
        if p == END_LINK as usize {
            return k + 1;
        }
    }
    0
}

// "a whole chain of the wrong number of portions or a picture over 32768": entry i, with a chain of n portions.
pub fn wrong_size(directory: &[u8], i: usize, n: usize) -> bool
    ensures { result ≡ (not (eqb n (needed (size (entry directory.now i)))) || (eqb (kind (entry directory.now i)) 2 && ltb most_picture (size (entry directory.now i)))) }
{
    let s = store::size_at(directory, i);
    if n != store::needed_for(s) {
        return true;
    }
    if store::kind_at(directory, i) != 2 {
        return false;
    }
    MOST_PICTURE < s
}

// One of n portions from a first one on is in a kept chain.
pub fn shares(links: &[u16], fills: &[u16], first: usize, n: usize) -> bool
    ensures { result ≡ meets fills.now (chain links.now first n) }
{
    let mut p = first;
    for _ in 0..n {
        if 0 < store::link_at(fills, p) {
            return true;
        }
        p = store::link_at(links, p);
    }
    false
}

// Notes so many bytes along n portions from a first one on: for each, one more than how many lie in it.
pub fn fill_chain(links: &[u16], first: usize, n: usize, size: usize, fills: &mut [u16])
    ensures { fills.new ≡ filled fills.old (chain links.now first n) size }
{
    let mut p = first;
    let mut left = size;
    for _ in 0..n {
        put_link(fills, p, (1 + least(BYTES_A_PORTION, left)) as u16);
        p = store::link_at(links, p);
        left = less(left, BYTES_A_PORTION);
    }
}
