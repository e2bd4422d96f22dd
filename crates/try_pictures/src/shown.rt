// What is written of a page and of a picture.
ghost use Rattle.std.specs.Prelude.{◌≡◌, ◌≤◌, IfOk, length};

use std::fs::File;
use std::io;
use std::io::Read;
use std::rt::Files;

pub(crate) fn say(out: &impl Print, text: &[u8]) -> io::Result<()> {
    out.write_all(text)
}

fn sign_of(page: &[u8], x: usize, y: usize) -> u8 {
    if 608 <= x {
        return b'.';
    }
    if page.len() / 76 <= y {
        return b'.';
    }
    let byte = page[y * 76 + x / 8];
    if (byte >> (7 - x % 8)) % 2 == 1 {
        b'#'
    } else {
        b'.'
    }
}

fn show_row(out: &impl Print, page: &[u8], y: usize) -> io::Result<()> {
    let mut line = [b'\n'; 65];
    for x in 0..64usize {
        line[x] = sign_of(page, x, y);
    }
    say(out, &line)
}

pub(crate) fn show(out: &impl Print, page: &[u8]) -> io::Result<()> {
    for y in 0..12usize {
        show_row(out, page, y)?;
    }
    Ok(())
}

pub(crate) fn judged(out: &impl Print, bytes: &[u8]) -> io::Result<()> {
    if pcx::is_legal(bytes) {
        say(out, b": legal\n")
    } else {
        say(out, b": not legal\n")
    }
}

// Room for a picture's file: 65,536 zeros, of which only the number is promised, so that nobody counts them one by one.
pub(crate) fn room() -> [u8; 65536]
    ensures { 65536 ≡ length result }
{
    [0; 65536]
}

// Puts a file's bytes at the front of the buffer, and answers how many there are.
pub(crate) fn load(rt: &impl Files, bytes: &mut [u8], name: &str) -> io::Result<usize>
    ensures { IfOk result (λ n. n ≤ length bytes.new) }
{
    let mut file = File::open(rt, name)?;
    let mut done = 0;
    for _ in 0..u64::MAX {
        if bytes.len() <= done {
            break;
        }
        match file.read(&mut bytes[done..])? {
            0 => break,
            n => done = ground::capped_sum(done, n),
        }
    }
    Ok(ground::least(done, bytes.len()))
}

pub(crate) fn draw(
    rt: &(impl Files + Print),
    page: &mut [u8],
    name: &str,
    width: usize,
    length: usize,
    x: usize,
    y: usize,
) -> io::Result<()> {
    let mut bytes = room();
    let n = load(rt, &mut bytes, name)?;
    say(rt, name.as_bytes())?;
    judged(rt, &bytes[..n])?;
    picture::draw(page, width, length, x, y, &bytes[..n]);
    Ok(())
}

pub(crate) fn alone(
    rt: &(impl Files + Print),
    name: &str,
    width: usize,
    length: usize,
    x: usize,
    y: usize,
) -> io::Result<()> {
    let mut page = [0u8; 912];
    draw(rt, &mut page, name, width, length, x, y)?;
    show(rt, &page)
}
