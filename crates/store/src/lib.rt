// What lies in the lent store (paper 01, "What is lent"): portions of 256 bytes, a table of links that chains them, and a directory of entries that name
// the chains. This crate reads what stands there, a link or a field of an entry, and reckons with it: how many portions a size needs, how many are free,
// where an entry's chain ends. Every function answers on any memory: past the end 0 is read, and no more links are followed than there are. What is found
// in the store is in `finding`, what it holds in `contents`, how it changes in `starting`, `growing`, `erasing` and `clearing`, and what makes it sound in
// `store_sound`.
#![tactic(auto)]

ghost use Rattle.std.specs.Prelude.{◌≡◌, ℕ, ◌+◌, ◌*◌, ◌<◌, length, get_or};
ghost use Rattle.store.specs.Chain.{bytes_a_portion, needed, free_count};
ghost use Rattle.store.specs.Entry.{bytes_an_entry, entry, kind, name_length, name, first, size, size_limit, many, last_of, of_kind};

use ground::least;

// "1 to 2,024 portions of 256 bytes".
pub const MOST_PORTIONS: usize = 2024;

pub const BYTES_A_PORTION: usize = 256;

// "1 to 512 entries of 16 bytes".
pub const MOST_ENTRIES: usize = 512;

pub const BYTES_AN_ENTRY: usize = 16;

// "size (4 bytes)": the greatest that can be written.
pub const MOST_SIZE: usize = 4294967295;

// What stands in a link: "the next portion, 65534 at a chain's end, 65535 free".
pub const FREE_LINK: u16 = 65535;

pub const END_LINK: u16 = 65534;

// ---- portions and links

// How many portions hold so many bytes.
pub fn needed_for(size: usize) -> usize
    ensures { result ≡ needed size }
{
    let whole = size / BYTES_A_PORTION;
    if size % BYTES_A_PORTION != 0 {
        return whole + 1;
    }
    if whole == 0 { 1 } else { whole }
}

pub fn free_count(links: &[u16]) -> usize
    ensures { result ≡ free_count links.now }
{
    let mut n: usize = 0;
    // A loop: `filter` and `count` would look at the links one by one, where these go several at once.
    for link in links {
        if *link == FREE_LINK {
            n += 1;
        }
    }
    n
}

// The link of portion p.
pub fn link_at(links: &[u16], p: usize) -> usize
    ensures { (result ≡ get_or links.now p 0) × (result < 65536) }
{
    if p < links.len() {
        links[p] as usize
    } else {
        0
    }
}

// ---- entries

// Byte o of entry i.
fn field(directory: &[u8], i: usize, o: usize) -> usize
    requires { o < bytes_an_entry }
    ensures { (result ≡ get_or (entry directory.now i) o 0) × (result < 256) }
{
    if directory.len() / BYTES_AN_ENTRY < i {
        return 0;
    }
    let from = i * BYTES_AN_ENTRY;
    if directory.len() - from <= o {
        return 0;
    }
    directory[from + o] as usize
}

pub fn kind_at(directory: &[u8], i: usize) -> usize
    ensures { (result ≡ kind (entry directory.now i)) × (result < 256) }
{
    field(directory, i, 0)
}

pub fn first_at(directory: &[u8], i: usize) -> usize
    ensures { (result ≡ first (entry directory.now i)) × (result < 65536) }
{
    let lo = field(directory, i, 10);
    let hi = field(directory, i, 11);
    lo + 256 * hi
}

pub fn size_at(directory: &[u8], i: usize) -> usize
    ensures { (result ≡ size (entry directory.now i)) × (result < size_limit) }
{
    let a = field(directory, i, 12);
    let b = field(directory, i, 13);
    let c = field(directory, i, 14);
    let d = field(directory, i, 15);
    a + 256 * b + 65536 * c + 16777216 * d
}

pub fn name_length_at(directory: &[u8], i: usize) -> usize
    ensures { (result ≡ name_length (entry directory.now i)) × (result < 256) }
{
    field(directory, i, 1)
}

// The name of entry i: 8 zero-filled bytes.
pub fn name_at(directory: &[u8], i: usize) -> [u8; 8]
    ensures { result ≡ name (entry directory.now i) }
{
    let a = field(directory, i, 2) as u8;
    let b = field(directory, i, 3) as u8;
    let c = field(directory, i, 4) as u8;
    let d = field(directory, i, 5) as u8;
    let e = field(directory, i, 6) as u8;
    let f = field(directory, i, 7) as u8;
    let g = field(directory, i, 8) as u8;
    let h = field(directory, i, 9) as u8;
    [a, b, c, d, e, f, g, h]
}

pub fn is_of_kind(picture: bool, k: usize) -> bool
    ensures { result ≡ of_kind picture k }
{
    if picture {
        return k == 2;
    }
    if k == 1 {
        return true;
    }
    k == 3
}

// ---- the chain of an entry

// How many portions entry i has.
pub fn many_at(directory: &[u8], i: usize) -> usize
    ensures { result ≡ many (entry directory.now i) }
{
    if kind_at(directory, i) == 0 {
        return 0;
    }
    needed_for(size_at(directory, i))
}

// The last portion of entry i.
pub fn last_at(links: &[u16], directory: &[u8], i: usize) -> usize
    ensures { result ≡ last_of links.now (entry directory.now i) }
{
    let mut p = first_at(directory, i);
    let many = least(needed_for(size_at(directory, i)), links.len());
    for _ in 1..many {
        p = link_at(links, p);
    }
    p
}
