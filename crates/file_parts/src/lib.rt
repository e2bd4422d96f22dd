// Numbers and sums in the bytes of a file: what the file of a lasting store is made of.
//
// Numbers stand low byte first, as in the session's image; past the file's end stand zeros, and nothing is written there. A sum takes every byte and
// its place: one byte more is the sum times 257, and the byte, and 1, modulo the greatest prime below 2^32 (specs/Sums.antt).
#![tactic(auto)]

ghost use Rattle.std.specs.Prelude.{◌≡◌, ◌+◌, ◌*◌, ◌<◌};
ghost use Rattle.std.proofs.lemmas.List.Edits.{sets};
ghost use Rattle.low_first.specs.Low.{number_at, bytes_of};
ghost use Rattle.file_parts.specs.Sums.{prime, stepped, sum_on, part_of};

use ground::{back, byte, front, put};

// The greatest prime below 2^32.
const PRIME: u64 = 4294967291;

// n bytes from a place on.
pub fn part<'a>(file: &'a [u8], at: usize, n: usize) -> &'a [u8]
    ensures { result.now ≡ part_of file.now at n }
{
    front(back(file, at), n)
}

fn pair(a: u8, b: u8) -> u16
    ensures { result ≡ a + 256 * b }
{
    a as u16 + 256 * (b as u16)
}

fn joined(low: u16, high: u16) -> u32
    ensures { result ≡ low + 65536 * high }
{
    low as u32 + 65536 * (high as u32)
}

// The number of two bytes.
pub fn two_at(file: &[u8], at: usize) -> u16
    ensures { result ≡ number_at 2 file.now at }
{
    let rest = back(file, at);
    pair(byte(rest, 0), byte(rest, 1))
}

// The number of four bytes.
pub fn four_at(file: &[u8], at: usize) -> u32
    ensures { result ≡ number_at 4 file.now at }
{
    let rest = back(file, at);
    let low = two_at(rest, 0);
    let high = two_at(rest, 2);
    joined(low, high)
}

pub fn put_two(file: &mut [u8], at: usize, x: u16)
    ensures { file.new ≡ sets file.old at (bytes_of 2 x) }
{
    let bytes = [(x % 256) as u8, (x / 256 % 256) as u8];
    put(file, at, &bytes);
}

pub fn put_four(file: &mut [u8], at: usize, x: u32)
    ensures { file.new ≡ sets file.old at (bytes_of 4 x) }
{
    let bytes = [
        (x % 256) as u8,
        (x / 256 % 256) as u8,
        (x / 256 / 256 % 256) as u8,
        (x / 256 / 256 / 256 % 256) as u8,
    ];
    put(file, at, &bytes);
}

// One byte more in a sum.
fn step(s: u64, b: u8) -> u64
    requires { s < prime }
    ensures { (result ≡ stepped s b) × (result < prime) }
{
    (s * 257 + b as u64 + 1) % PRIME
}

// The sum of bytes, from a sum on.
pub fn sum(start: u32, bytes: &[u8]) -> u32
    ensures { result ≡ sum_on start bytes.now }
{
    let mut s = start as u64 % PRIME;
    for b in bytes {
        s = step(s, *b);
    }
    s as u32
}
