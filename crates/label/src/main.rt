// The station on standard input: 240 rows, 64 portions, 8 entries, an empty 8 by 8 font, and up to 8,192 bytes of commands.
//
// Paper 01, "Sample session": each call's number and answer are written, then the listing that the call gave, then a line for each label that it owes,
// with the black dots of its page. All that matters is in crate `station`; the sample session stands in `stdin`, and what it must give in `stdout`.
#![tactic(auto)]

ghost use Rattle.std.specs.Prelude.{◌≤◌};

use answers::Answer;
use dots::BYTES_A_ROW;
use lent::BYTES_OF_VALUES;
use session::Session;
use station::Outcome;
use std::io;
use std::io::Read;

// "240 rows, 64 portions, 8 entries, input 8,192 bytes": a page of 76 bytes a row, a store of 256 bytes a portion, a directory of 16 an entry.
const PAGE: usize = 240 * BYTES_A_ROW;

const PORTIONS: usize = 64;

const STORE: usize = PORTIONS * 256;

const DIRECTORY: usize = 8 * 16;

const INPUT: usize = 8192;

// Cells of 8 by 8 dots, and no glyph.
const FONT: [u8; 8] = *b"\x01\x02\x00\x08\x08\xff\x00\x00";

fn say(out: &impl Print, text: &[u8]) -> io::Result<()> {
    out.write_all(text)
}

fn say_number(out: &impl Print, n: usize) -> io::Result<()> {
    print!(out; "{n}")
}

// `line K: A`, and the listing as it is; "silent if no bytes remain".
fn say_answer(
    out: &impl Print,
    k: usize,
    unread: usize,
    answer: Answer,
    output: &[u8],
    written: usize,
) -> io::Result<()> {
    if unread == 0 {
        return Ok(());
    }
    let number = answers::number(answer);
    say(out, b"line ")?;
    say_number(out, k)?;
    say(out, b": ")?;
    say_number(out, number as usize)?;
    say(out, b"\n")?;
    say(out, parts::first(output, written))
}

// `label I black D`
fn say_label(out: &impl Print, session: Session, page: &[u8]) -> io::Result<()> {
    let drawn = session.drawn;
    say(out, b"label ")?;
    say_number(out, drawn as usize)?;
    say(out, b" black ")?;
    say_number(out, pages::black_dots(page))?;
    say(out, b"\n")
}

// Label calls "until none is owed".
fn labels(
    out: &impl Print,
    session: Session,
    background: &[u8],
    store: &[u8],
    links: &[u16],
    directory: &[u8],
    values: &[u8],
) -> io::Result<Session> {
    let mut page = [0u8; PAGE];
    let mut s = session;
    for _ in 0..session.owed {
        let labelled = station::label(
            s, &FONT, &mut page, background, store, links, directory, values,
        );
        s = labelled.session;
        say_label(out, s, &page)?;
    }
    Ok(s)
}

// One call on the unread rest of the input, and the labels that it owes.
fn call(
    out: &impl Print,
    k: usize,
    session: Session,
    background: &mut [u8],
    store: &mut [u8],
    links: &mut [u16],
    directory: &mut [u8],
    values: &mut [u8],
    unread: &[u8],
) -> io::Result<Outcome> {
    let mut output = [0u8; STORE];
    let o = station::command(
        session,
        &FONT,
        background,
        store,
        links,
        directory,
        values,
        &mut output,
        unread,
    );
    let answer = o.answer;
    let written = o.written;
    let after = o.session;
    say_answer(out, k, unread.len(), answer, &output, written)?;
    let drawn = labels(out, after, background, store, links, directory, values)?;
    Ok(Outcome {
        answer: answer,
        session: drawn,
        read: o.read,
        written: written,
    })
}

// How many calls there may be: no more, once one has read nothing.
fn calls_in(most: usize, read: usize) -> usize
    ensures { result ≤ most }
{
    if read == 0 {
        return 0;
    }
    most
}

// Calls up to the one that reads nothing. Every other reads a byte or more, so that there are no more of them than bytes.
fn calls(
    out: &impl Print,
    opened: Session,
    background: &mut [u8],
    store: &mut [u8],
    links: &mut [u16],
    directory: &mut [u8],
    values: &mut [u8],
    input: &[u8],
) -> io::Result<()> {
    let mut s = opened;
    let mut unread = input;
    let mut most = input.len();
    for k in 0..input.len() {
        if most <= k {
            return Ok(());
        }
        let o = call(
            out,
            k + 1,
            s,
            background,
            store,
            links,
            directory,
            values,
            unread,
        )?;
        s = o.session;
        most = calls_in(most, o.read);
        let answer = o.answer;
        let rest = station::rest(unread, answer);
        unread = rest;
    }
    Ok(())
}

// The bytes that are read until the buffer is full or the input ends, and how many there are at the buffer's front.
fn read_full(input: &mut impl Read, buffer: &mut [u8]) -> io::Result<usize> {
    let mut done = 0;
    for _ in 0..u64::MAX {
        if buffer.len() <= done {
            return Ok(done);
        }
        match input.read(&mut buffer[done..])? {
            0 => return Ok(done),
            n => done = ground::capped_sum(done, n),
        }
    }
    Ok(done)
}

fn main(rt: HostRuntime) -> io::Result<()> {
    let mut page = [0u8; PAGE];
    let mut background = [0u8; PAGE];
    let mut store = [0u8; STORE];
    let mut links = [0u16; PORTIONS];
    let mut directory = [0u8; DIRECTORY];
    let mut values = [0u8; BYTES_OF_VALUES];
    let mut input = [0u8; INPUT];
    let n = read_full(&mut rt.stdin(), &mut input)?;
    let opened = station::open(
        &mut page,
        &mut background,
        &mut store,
        &mut links,
        &mut directory,
        &mut values,
    );
    let session = opened.session;
    calls(
        &rt,
        session,
        &mut background,
        &mut store,
        &mut links,
        &mut directory,
        &mut values,
        ground::front(&input, n),
    )
}
