// What is found in links and directory (paper 01): "New entries and portions are the lowest free"; an entry by kind and name, where "1 and 3 are one
// kind"; and the form being recorded. Each search answers the lowest number that passes its test, or nothing, on any memory.
#![tactic(auto)]

ghost use Rattle.std.specs.Prelude.{◌≡◌, ℕ, ◌+◌, ◌≤◌, ◌<◌, length, get_or, eqb};
ghost use Rattle.store.specs.Entry.{entries, entry, kind as store_kind};
ghost use Rattle.finding.specs.Find.{found, lowest_free, lowest_empty, recorded, titled_at};
ghost use Rattle.finding.specs.Bytes.{two, four, eight, titled_by};

use store::{BYTES_AN_ENTRY, FREE_LINK};

pub fn lowest_free(links: &[u16]) -> Option<usize>
    ensures { result ≡ lowest_free links.now }
{
    links.iter().position(|link| *link == FREE_LINK)
}

// The lowest entry whose kind byte is this one.
fn lowest_of(directory: &[u8], kind: usize) -> Option<usize>
    ensures { result ≡ found (λ i. eqb (store_kind (entry directory.now i)) kind) (entries directory.now) }
{
    (0..directory.len() / BYTES_AN_ENTRY).find(|i| store::kind_at(directory, *i) == kind)
}

pub fn lowest_empty(directory: &[u8]) -> Option<usize>
    ensures { result ≡ lowest_empty directory.now }
{
    lowest_of(directory, 0)
}

// The form being recorded.
pub fn recording(directory: &[u8]) -> Option<usize>
    ensures { result ≡ recorded directory.now }
{
    lowest_of(directory, 3)
}

// The number that bytes make, low byte first, so that a name is compared at once. Read from the slice where it lies: `u64::from_le_bytes` takes an array, which
// would first be copied out, byte by byte again.
fn two(s: &[u8], at: usize) -> u64
    requires { at + 2 ≤ length s.now }
    ensures { (result ≡ two s.now at) × (result < 65536) }
{
    s[at] as u64 + 256 * (s[at + 1] as u64)
}

fn four(s: &[u8], at: usize) -> u64
    requires { at + 4 ≤ length s.now }
    ensures { (result ≡ four s.now at) × (result < 4294967296) }
{
    two(s, at) + 65536 * two(s, at + 2)
}

fn eight(s: &[u8], at: usize) -> u64
    requires { at + 8 ≤ length s.now }
    ensures { (result ≡ eight s.now at) × ((k : ℕ) → get_or s.now k 0 < 256) }
{
    four(s, at) + 4294967296 * four(s, at + 4)
}

fn number_of(title: [u8; 8]) -> u64
    ensures { (result ≡ eight title 0) × ((k : ℕ) → get_or title k 0 < 256) }
{
    eight(&title, 0)
}

// Entry i is of the kind and bears the name that makes the number w. Names mostly differ, so they are compared first.
fn is_titled(directory: &[u8], picture: bool, w: u64, i: usize) -> bool
    requires { i < entries directory.now }
    ensures { result ≡ titled_by directory.now picture w i }
{
    if eight(directory, i * BYTES_AN_ENTRY + 2) != w {
        return false;
    }
    let k = store::kind_at(directory, i);
    store::is_of_kind(picture, k)
}

// The entry of a kind, picture or form, that bears a name of 8 zero-filled bytes.
pub fn find(directory: &[u8], picture: bool, title: [u8; 8]) -> Option<usize>
    ensures { result ≡ titled_at directory.now picture title }
{
    let w = number_of(title);
    (0..directory.len() / BYTES_AN_ENTRY).find(|i| is_titled(directory, picture, w, *i))
}
