// Legal pictures with a few bytes changed, so that one rule is broken.
use crate::shown::{judged, load, room, say, show};
use ground::put_byte;
use std::io;
use std::rt::Files;

// Says whether the first n bytes are legal, and shows the page if they draw on it.
fn tried(out: &impl Print, bytes: &[u8], n: usize, what: &[u8]) -> io::Result<()> {
    if bytes.len() < n {
        return Ok(());
    }
    say(out, what)?;
    judged(out, &bytes[..n])?;
    let mut page = [0u8; 912];
    picture::draw(&mut page, 608, 12, 0, 0, &bytes[..n]);
    if !is_white(&page) {
        show(out, &page)?;
    }
    Ok(())
}

fn is_white(page: &[u8]) -> bool {
    for b in page {
        if *b != 0 {
            return false;
        }
    }
    true
}

// The first n bytes with one of them changed, and then as they were.
fn changed(
    out: &impl Print,
    bytes: &mut [u8],
    n: usize,
    what: &[u8],
    at: usize,
    value: u8,
) -> io::Result<()> {
    if bytes.len() <= at {
        return Ok(());
    }
    let before = bytes[at];
    bytes[at] = value;
    let said = tried(out, bytes, n, what);
    bytes[at] = before;
    said
}

// 12 by 3 dots, lines of 2 bytes, 133 bytes: the marks of the header.
pub(crate) fn header(rt: &(impl Files + Print)) -> io::Result<()> {
    let mut bytes = room();
    load(rt, &mut bytes, "across.pcx")?;
    changed(rt, &mut bytes, 133, b"byte 0 is 11", 0, 11)?;
    changed(rt, &mut bytes, 133, b"byte 1 is 1", 1, 1)?;
    changed(rt, &mut bytes, 133, b"byte 1 is 6", 1, 6)?;
    changed(rt, &mut bytes, 133, b"byte 2 is 0", 2, 0)?;
    changed(rt, &mut bytes, 133, b"byte 3 is 8", 3, 8)?;
    changed(rt, &mut bytes, 133, b"byte 65 is 3", 65, 3)?;
    changed(rt, &mut bytes, 133, b"minimum 12, maximum 11", 4, 12)?;
    tried(rt, &bytes, 128, b"128 bytes")
}

// Lines and sizes. What else is changed keeps the number of bytes that the runs give right.
pub(crate) fn sizes(rt: &(impl Files + Print)) -> io::Result<()> {
    let mut bytes = room();
    load(rt, &mut bytes, "across.pcx")?;
    changed(rt, &mut bytes, 133, b"17 dots in lines of 2 bytes", 8, 16)?;
    put_byte(&mut bytes, 10, 1);
    changed(rt, &mut bytes, 133, b"lines of 3 bytes", 66, 3)?;
    load(rt, &mut bytes, "wide.pcx")?;
    put_byte(&mut bytes, 136, 198);
    changed(rt, &mut bytes, 138, b"lines of 258 bytes", 66, 2)?;
    load(rt, &mut bytes, "tall.pcx")?;
    put_byte(&mut bytes, 382, 255);
    changed(rt, &mut bytes, 386, b"4,001 lines", 10, 160)
}

pub(crate) fn runs(rt: &(impl Files + Print)) -> io::Result<()> {
    let mut bytes = room();
    load(rt, &mut bytes, "across.pcx")?;
    changed(rt, &mut bytes, 133, b"byte 128 is 192", 128, 192)?;
    changed(rt, &mut bytes, 133, b"a byte too few", 128, 194)?;
    changed(rt, &mut bytes, 133, b"a byte too many", 128, 196)?;
    changed(rt, &mut bytes, 134, b"a run without its value", 133, 193)
}

// 128 by 2,040 dots in lines of 16 bytes, each byte for itself: 32,768 bytes, and then one more, as the first is a run of 1.
pub(crate) fn longest(rt: &(impl Files + Print)) -> io::Result<()> {
    let mut bytes = room();
    load(rt, &mut bytes, "across.pcx")?;
    put_byte(&mut bytes, 8, 127);
    put_byte(&mut bytes, 10, 247);
    put_byte(&mut bytes, 11, 7);
    put_byte(&mut bytes, 66, 16);
    put_byte(&mut bytes, 128, 0);
    put_byte(&mut bytes, 130, 0);
    put_byte(&mut bytes, 131, 0);
    put_byte(&mut bytes, 132, 0);
    tried(rt, &bytes, 32768, b"32,768 bytes")?;
    changed(rt, &mut bytes, 32769, b"32,769 bytes", 128, 193)
}
