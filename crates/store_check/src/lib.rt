// Decides the store's part of sound (paper 01), clause by clause, on any memory: each function answers exactly its Bool of `store_sound`. All but one do
// so in one pass over what they read; names are compared with each other, entry by entry. The clauses of the chains are decided in `chain_check`.
#![tactic(auto)]

ghost use Rattle.std.specs.Prelude.{◌≡◌, true, false, ◌&&◌, ℕ, ◌≤◌, ◌<◌, length, get_or, take, drop};
ghost use Rattle.cells.specs.Count.{all_to, all_zero, set_all};
ghost use Rattle.store.specs.Chain.{chain, most_portions};
ghost use Rattle.store.specs.Entry.{entries, entry};
ghost use Rattle.store_sound.specs.Sound.{lent_ok, kinds_ok, legal_byte, name_byte_ok, named_ok, names_ok, is_here, unique_ok, uniques_ok, single_ok, singles_ok, firsts, counts, links_ok, chains_ok, empty_ok, empties_ok, free_ok, frees_ok, tail_ok, tails_ok, store_sound};

use ground::{both, least};
use store::{BYTES_A_PORTION, BYTES_AN_ENTRY, FREE_LINK, MOST_ENTRIES, MOST_PORTIONS};

pub fn lent_ok(store: &[u8], links: &[u16], directory: &[u8]) -> bool
    ensures { result ≡ lent_ok store.now links.now directory.now }
{
    let p = links.len();
    let n = directory.len() / BYTES_AN_ENTRY;
    if MOST_PORTIONS < p {
        return false;
    }
    both(
        1 <= p,
        both(
            store.len() == p * BYTES_A_PORTION,
            both(
                directory.len() == n * BYTES_AN_ENTRY,
                both(1 <= n, n <= MOST_ENTRIES),
            ),
        ),
    )
}

// ---- kinds and names

pub fn kinds_ok(directory: &[u8]) -> bool
    ensures { result ≡ kinds_ok directory.now }
{
    (0..directory.len() / BYTES_AN_ENTRY).all(|i| store::kind_at(directory, i) <= 3)
}

fn legal_byte(b: u8) -> bool
    ensures { result ≡ legal_byte b }
{
    both(
        both(b' ' <= b, b <= b'~'),
        both(b != b'*', both(b != b'"', !both(b'a' <= b, b <= b'z'))),
    )
}

fn name_byte_ok(n: usize, title: [u8; 8], k: usize) -> bool
    requires { k < 8 }
    ensures { result ≡ name_byte_ok n title k }
{
    if k < n {
        return legal_byte(title[k]);
    }
    title[k] == 0
}

fn name_bytes_ok(n: usize, title: [u8; 8]) -> bool
    ensures { result ≡ all_to (name_byte_ok n title) 8 }
{
    (0..8).all(|k| name_byte_ok(n, title, k))
}

// The name of entry i is legal; also for a caller that judges entries one by one.
pub fn name_ok(directory: &[u8], i: usize) -> bool
    ensures { result ≡ named_ok directory.now i }
{
    if store::kind_at(directory, i) == 0 {
        return true;
    }
    let n = store::name_length_at(directory, i);
    if n == 0 {
        return false;
    }
    if 8 < n {
        return false;
    }
    name_bytes_ok(n, store::name_at(directory, i))
}

pub fn names_ok(directory: &[u8]) -> bool
    ensures { result ≡ names_ok directory.now }
{
    (0..directory.len() / BYTES_AN_ENTRY).all(|i| name_ok(directory, i))
}

fn is_here(i: usize, found: Option<usize>) -> bool
    ensures { result ≡ is_here i found }
{
    found.is_some_and(|j| j == i)
}

fn unique_ok(directory: &[u8], i: usize) -> bool
    ensures { result ≡ unique_ok directory.now i }
{
    let k = store::kind_at(directory, i);
    if k == 0 {
        return true;
    }
    is_here(
        i,
        finding::find(directory, k == 2, store::name_at(directory, i)),
    )
}

// One pass over the directory for each entry: names are compared with those of all entries of the kind, at most 512 times 512.
pub fn uniques_ok(directory: &[u8]) -> bool
    ensures { result ≡ uniques_ok directory.now }
{
    (0..directory.len() / BYTES_AN_ENTRY).all(|i| unique_ok(directory, i))
}

fn single_ok(directory: &[u8], i: usize) -> bool
    ensures { result ≡ single_ok directory.now i }
{
    if store::kind_at(directory, i) != 3 {
        return true;
    }
    is_here(i, finding::recording(directory))
}

pub fn singles_ok(directory: &[u8]) -> bool
    ensures { result ≡ singles_ok directory.now }
{
    (0..directory.len() / BYTES_AN_ENTRY).all(|i| single_ok(directory, i))
}

// ---- unused bytes

// No early exit, so that many bytes go at once.
fn is_zero(s: &[u8]) -> bool
    ensures { result ≡ all_zero s.now }
{
    let mut any: u8 = 0;
    for b in s {
        any |= *b;
    }
    any == 0
}

// So many bytes from a place on are zero.
fn zero_from(s: &[u8], at: usize, n: usize) -> bool
    ensures { result ≡ all_zero (take n (drop at s.now)) }
{
    if s.len() <= at {
        return true;
    }
    let end = at + least(n, s.len() - at);
    is_zero(&s[at..end])
}

fn empty_ok(directory: &[u8], i: usize) -> bool
    ensures { result ≡ empty_ok directory.now i }
{
    if store::kind_at(directory, i) != 0 {
        return true;
    }
    if directory.len() / BYTES_AN_ENTRY < i {
        return true;
    }
    zero_from(directory, i * BYTES_AN_ENTRY, BYTES_AN_ENTRY)
}

pub fn empties_ok(directory: &[u8]) -> bool
    ensures { result ≡ empties_ok directory.now }
{
    (0..directory.len() / BYTES_AN_ENTRY).all(|i| empty_ok(directory, i))
}

fn free_ok(store: &[u8], links: &[u16], q: usize) -> bool
    ensures { result ≡ free_ok store.now links.now q }
{
    if store::link_at(links, q) != FREE_LINK as usize {
        return true;
    }
    if store.len() / BYTES_A_PORTION < q {
        return true;
    }
    zero_from(store, q * BYTES_A_PORTION, BYTES_A_PORTION)
}

pub fn frees_ok(store: &[u8], links: &[u16]) -> bool
    ensures { result ≡ frees_ok store.now links.now }
{
    (0..links.len()).all(|q| free_ok(store, links, q))
}

fn tail_ok(store: &[u8], links: &[u16], directory: &[u8], i: usize) -> bool
    ensures { result ≡ tail_ok store.now links.now directory.now i }
{
    if store::kind_at(directory, i) == 0 {
        return true;
    }
    let s = store::size_at(directory, i);
    let o = s - BYTES_A_PORTION * (store::needed_for(s) - 1);
    let p = store::last_at(links, directory, i);
    if store.len() / BYTES_A_PORTION < p {
        return true;
    }
    zero_from(store, p * BYTES_A_PORTION + o, BYTES_A_PORTION - o)
}

pub fn tails_ok(store: &[u8], links: &[u16], directory: &[u8]) -> bool
    ensures { result ≡ tails_ok store.now links.now directory.now }
{
    (0..directory.len() / BYTES_AN_ENTRY).all(|i| tail_ok(store, links, directory, i))
}

// ---- all of it

fn unused_ok(store: &[u8], links: &[u16], directory: &[u8]) -> bool
    ensures { result ≡ (empties_ok directory.now && (frees_ok store.now links.now && tails_ok store.now links.now directory.now)) }
{
    if !empties_ok(directory) {
        return false;
    }
    if !frees_ok(store, links) {
        return false;
    }
    tails_ok(store, links, directory)
}

fn titles_ok(directory: &[u8]) -> bool
    ensures { result ≡ (kinds_ok directory.now && (names_ok directory.now && (uniques_ok directory.now && singles_ok directory.now))) }
{
    if !kinds_ok(directory) {
        return false;
    }
    if !names_ok(directory) {
        return false;
    }
    if !uniques_ok(directory) {
        return false;
    }
    singles_ok(directory)
}

// The store's part of sound.
pub fn store_sound(store: &[u8], links: &[u16], directory: &[u8]) -> bool
    ensures { result ≡ store_sound store.now links.now directory.now }
{
    if !lent_ok(store, links, directory) {
        return false;
    }
    if !titles_ok(directory) {
        return false;
    }
    if !chain_check::chains_ok(links, directory) {
        return false;
    }
    unused_ok(store, links, directory)
}
