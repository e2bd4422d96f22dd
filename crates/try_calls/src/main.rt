// Calls that an independent station answered, made again on this one through its exported boundary: every line must be the one that the other wrote.
//
// `calls.bin` is a row of records, all numbers low byte first. A record starts with its letter. `S fill` is a new desk: every byte of every slice is
// fill, each link fill * 257, the counts 0. `F length bytes` is the font from now on. `K slice at byte` changes one byte between calls (slice 0
// session, 4 background, 5 store, 6 links as bytes, 7 directory, 8 values). `O`, `C`, `L`, `W` (will it fit?), `T` (the clock) and `R` (a repair) are the six calls, with
// the lengths of session, counts, page, background, store, links, directory, values and output; after them `C` has the length of its input and the input, `W` the
// kind, the size in 8 bytes, the length of the name and the name, `T` the seconds in 8 bytes, and `R` the rows in 8 bytes. A desk has room for more than a call is lent. `stdout` has a line
// for each call: its number, the answer, the three counts, and a digest of all slices, the room beyond what was lent included. Both files are the first 1,384 calls of those of peer/vectors, before its repairs.
#![tactic(auto)]

ghost use Rattle.std.specs.Prelude.{◌≡◌, length};

mod one_call; // one call

use file_parts::{part, two_at};
use ground::{back, byte};
use one_call::call;
use std::fs::File;
use std::io;
use std::io::Read;
use try_desk::{Desk, changed, line, new_desk, without_counts};

// The desk, where the next record stands, how many calls were made, and where the font stands.
#[derive(Clone, Copy)]
struct Progress {
    desk: Desk,
    at: usize,
    calls: usize,
    font: usize,
    length: usize,
}

fn moved(r: Progress, size: usize) -> Progress {
    let mut next = r;
    next.at = ground::capped_sum(r.at, size);
    next
}

// F
fn font(r: Progress, record: &[u8]) -> Progress {
    let length = two_at(record, 1) as usize;
    let mut next = moved(r, 3 + length);
    next.font = ground::capped_sum(r.at, 3);
    next.length = length;
    next
}

// How many bytes the record of a call takes.
fn size(record: &[u8]) -> usize {
    match byte(record, 0) {
        b'C' => 21 + two_at(record, 19) as usize,
        b'W' => 30 + two_at(record, 28) as usize,
        b'T' => 27,
        b'R' => 27,
        _ => 19,
    }
}

// What a line shows of a desk: a question and the clock call are lent no counts, and have none to show.
fn shown(record: &[u8], after: Desk) -> Desk {
    match byte(record, 0) {
        b'W' => without_counts(after),
        b'T' => without_counts(after),
        _ => after,
    }
}

// O, C, L, W, T and R
fn called(out: &impl Print, file: &[u8], r: Progress, record: &[u8]) -> io::Result<Progress> {
    let desk = r.desk;
    let after = call(record, part(file, r.font, r.length), desk);
    let calls = ground::capped_sum(r.calls, 1);
    line(out, calls, shown(record, after))?;
    let mut next = moved(r, size(record));
    next.desk = after;
    next.calls = calls;
    Ok(next)
}

// One record.
fn one(out: &impl Print, file: &[u8], r: Progress) -> io::Result<Progress> {
    let record = back(file, r.at);
    match byte(record, 0) {
        b'S' => {
            let mut next = moved(r, 2);
            next.desk = new_desk(byte(record, 1));
            Ok(next)
        }
        b'F' => Ok(font(r, record)),
        b'K' => {
            let desk = r.desk;
            let mut next = moved(r, 5);
            next.desk = changed(
                desk,
                byte(record, 1),
                two_at(record, 2) as usize,
                byte(record, 4),
            );
            Ok(next)
        }
        _ => called(out, file, r, record),
    }
}

// No record is empty, so that there are no more of them than bytes.
fn replay(out: &impl Print, file: &[u8]) -> io::Result<()> {
    let desk = new_desk(0);
    let mut r = Progress {
        desk: desk,
        at: 0,
        calls: 0,
        font: 0,
        length: 0,
    };
    for _ in 0..file.len() {
        if file.len() <= r.at {
            return Ok(());
        }
        r = one(out, file, r)?;
    }
    Ok(())
}

// Room for the file of calls: zeros, of which only the number is promised, so that nobody counts them one by one.
fn room() -> [u8; 131072]
    ensures { 131072 ≡ length result }
{
    [0; 131072]
}

// The bytes that are read until the buffer is full or the file ends, and how many there are at the buffer's front.
fn read_full(input: &mut impl Read, buffer: &mut [u8]) -> io::Result<usize> {
    let mut done = 0;
    for _ in 0..u64::MAX {
        if buffer.len() <= done {
            return Ok(done);
        }
        match input.read(&mut buffer[done..])? {
            0 => return Ok(done),
            n => done = ground::capped_sum(done, n),
        }
    }
    Ok(done)
}

fn main(rt: HostRuntime) -> io::Result<()> {
    let mut bytes = room();
    let mut calls = File::open(&rt, "calls.bin")?;
    let n = read_full(&mut calls, &mut bytes)?;
    replay(&rt, ground::front(&bytes, n))
}
