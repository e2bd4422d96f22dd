// The line of a call.
ghost use Rattle.std.specs.Prelude.{◌<◌};

use crate::Desk;
use std::io;

fn wide(x: u32) -> u64
    ensures { result < 4294967296 }
{
    x as u64
}

// The prime of FNV-1a in 32 bits, and where a digest starts.
const PRIME: u64 = 16777619;

const START: u32 = 2166136261;

// One step of FNV-1a: exclusive or, then times the prime.
fn mixed(digest: u32, b: u8) -> u32 {
    let x = wide(digest ^ (b as u32));
    (x * PRIME % 4294967296) as u32
}

fn mixed_bytes(digest: u32, bytes: &[u8]) -> u32 {
    let mut d = digest;
    for b in bytes {
        d = mixed(d, *b);
    }
    d
}

fn mixed_link(digest: u32, link: u16) -> u32 {
    mixed(mixed(digest, (link % 256) as u8), (link / 256) as u8)
}

fn mixed_links(digest: u32, links: &[u16]) -> u32 {
    let mut d = digest;
    for link in links {
        d = mixed_link(d, *link);
    }
    d
}

// Session, page and background.
fn front(d: Desk) -> u32 {
    let session = d.session;
    let page = d.page;
    let background = d.background;
    mixed_bytes(
        mixed_bytes(mixed_bytes(START, &session), &page),
        &background,
    )
}

// Every slice in its order.
fn digest(d: Desk) -> u32 {
    let store = d.store;
    let links = d.links;
    let directory = d.directory;
    let values = d.values;
    let output = d.output;
    let memory = mixed_bytes(
        mixed_links(mixed_bytes(front(d), &store), &links),
        &directory,
    );
    mixed_bytes(mixed_bytes(memory, &values), &output)
}

// A number, and what stands after it.
fn say(out: &impl Print, n: u64, after: &str) -> io::Result<()> {
    print!(out; "{n}{after}")
}

pub fn line(out: &impl Print, calls: usize, d: Desk) -> io::Result<()> {
    let counts = d.counts;
    say(out, calls as u64, " ")?;
    say(out, d.answer as u64, " ")?;
    say(out, counts[0], " ")?;
    say(out, counts[1], " ")?;
    say(out, counts[2], " ")?;
    let sum = digest(d);
    println!(out; "{sum:08x}")
}
