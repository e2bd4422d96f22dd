// Decides the clauses of Sound on chains (paper 01): "each chain of exactly size/256 rounded up, at least one, portions; no portion in two chains; all
// others free". All chains are walked once, and each portion that is met is marked, so that links that cross, run in circles or point anywhere are found at
// once; then the marks are held to the links. On any memory the answer is exactly that of `chains_ok` of `store_sound`.
#![tactic(auto)]

ghost use Rattle.std.specs.Prelude.{◌≡◌, true, false, ◌&&◌, ℕ, ◌≤◌, ◌<◌, length, get_or, leb};
ghost use Rattle.cells.specs.Count.{all_to, set_all};
ghost use Rattle.store.specs.Chain.{most_portions, chain};
ghost use Rattle.store.specs.Entry.{entries};
ghost use Rattle.store_sound.specs.Sound.{firsts, counts, links_ok, chains_ok};
ghost use Rattle.chain_check.specs.Claim.{claim_ok, claim_entry, Claimed, mark_fits};

use store::{BYTES_AN_ENTRY, END_LINK, FREE_LINK, MOST_PORTIONS};

// Walks the chain of n portions that starts at first, and marks its portions: false where it is no chain of n portions or meets a mark.
fn claim(links: &[u16], first: usize, n: usize, marks: &mut [u8]) -> bool
    requires { length links.now ≤ length marks.old }
    ensures walked { result ≡ claim_ok links.now marks.old first n }
    ensures marked { result ≡ true → marks.new ≡ set_all marks.old (chain links.now first n) 1 }
{
    let mut p = first;
    for _ in 0..n {
        if links.len() <= p {
            return false;
        }
        if marks[p] != 0 {
            return false;
        }
        marks[p] = 1;
        p = links[p] as usize;
    }
    p == END_LINK as usize
}

// Claims the portions of entry i, if it has any.
fn claim_entry(links: &[u16], directory: &[u8], i: usize, marks: &mut [u8]) -> bool
    requires { length links.now ≤ length marks.old }
    ensures walked { result ≡ claim_entry links.now marks.old (firsts directory.now i) (counts directory.now i) }
    ensures marked { result ≡ true → marks.new ≡ set_all marks.old (chain links.now (firsts directory.now i) (counts directory.now i)) 1 }
{
    let k = store::many_at(directory, i);
    if k == 0 {
        return true;
    }
    let f = store::first_at(directory, i);
    claim(links, f, k, marks)
}

// Portion q is marked, or free and not marked.
fn mark_fits(links: &[u16], marks: &[u8], q: usize) -> bool
    requires { (q < length links.now) × (q < length marks.now) }
    ensures { result ≡ mark_fits links.now marks.now q }
{
    if links[q] == FREE_LINK {
        return marks[q] == 0;
    }
    marks[q] == 1
}

// Claims the portions of every entry: false only where the links are not sound.
fn claim_all(links: &[u16], directory: &[u8], marks: &mut [u8]) -> bool
    requires links_in_bounds { length links.now ≤ length marks.old }
    requires by_index { (q : ℕ) → get_or marks.old q 0 ≡ 0 }
    ensures refused { result ≡ false → links_ok links.now (firsts directory.now) (counts directory.now) (entries directory.now) ≡ false }
    ensures claimed { result ≡ true → Claimed links.now (firsts directory.now) (counts directory.now) (entries directory.now) marks.new }
{
    let n = directory.len() / BYTES_AN_ENTRY;
    for i in 0..n {
        if !claim_entry(links, directory, i, marks) {
            return false;
        }
    }
    true
}

// Each portion is marked, or free and not marked.
fn marks_fit(links: &[u16], marks: &[u8]) -> bool
    requires { length links.now ≤ length marks.now }
    ensures { result ≡ all_to (mark_fits links.now marks.now) (length links.now) }
{
    (0..links.len()).all(|q| mark_fits(links, marks, q))
}

// There are no more portions than may be lent, each chain has its portions and then ends, no portion is in two, and all others are free.
pub fn chains_ok(links: &[u16], directory: &[u8]) -> bool
    ensures { result ≡ (leb (length links.now) most_portions && chains_ok links.now directory.now) }
{
    if MOST_PORTIONS < links.len() {
        return false;
    }
    let mut marks = [0u8; MOST_PORTIONS];
    if !claim_all(links, directory, &mut marks) {
        return false;
    }
    marks_fit(links, &marks)
}
