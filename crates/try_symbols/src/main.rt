// Element widths of bar symbols, for comparison with what others publish. Each line of standard input is an example: a letter for the type (3, 2 and
// 1 as in the paper, E for E30), a digit for e, a digit for f, and the data. For each, a line with the widths of the elements in dots is
// written; nothing but its end if the data are unfit.
#![tactic(auto)]

ghost use Rattle.std.specs.Prelude.{◌≡◌, ◌≤◌, length};

use bars::Widths;
use kinds::Kind;
use std::io;
use std::io::Read;

fn kind_of(b: u8) -> Kind {
    match b {
        b'3' => Kind::Code39,
        b'2' => Kind::Interleaved,
        b'E' => Kind::Ean13,
        b'1' => Kind::Code128,
        _ => Kind::Shown,
    }
}

fn value_of(b: u8) -> u8 {
    if b < b'0' { 0 } else { b - b'0' }
}

fn digit_of(n: usize) -> u8 {
    let d = (n % 10) as u8;
    b'0' + d
}

fn emit(line: &mut [u8], at: usize, b: u8) -> usize {
    if at < line.len() {
        line[at] = b;
        return at + 1;
    }
    at
}

fn emit_tens(line: &mut [u8], at: usize, w: usize) -> usize {
    if w < 10 {
        return at;
    }
    emit(line, at, digit_of(w / 10))
}

fn emit_width(line: &mut [u8], at: usize, w: usize) -> usize {
    let tens = emit_tens(line, at, w);
    let ones = emit(line, tens, digit_of(w));
    emit(line, ones, b' ')
}

fn show(out: &impl Print, line: &[u8], n: usize) -> io::Result<()> {
    if n <= line.len() {
        return out.write_all(&line[..n]);
    }
    Ok(())
}

fn symbol(
    out: &impl Print,
    by: Widths,
    bytes: &[u8],
    ws: &mut [u8],
    line: &mut [u8],
) -> io::Result<()> {
    let n = symbols::elements(by.kind, bytes, ws);
    let mut at: usize = 0;
    for k in 0..n {
        at = emit_width(line, at, bars::width(by, ground::byte(ws, k)));
    }
    let end = emit(line, at, b'\n');
    show(out, line, end)
}

fn example(out: &impl Print, text: &[u8]) -> io::Result<()> {
    if text.len() < 3 {
        return Ok(());
    }
    let by = Widths {
        kind: kind_of(text[0]),
        e: value_of(text[1]),
        f: value_of(text[2]),
    };
    let mut ws = [0u8; 1299];
    let mut line = [0u8; 4096];
    symbol(out, by, &text[3..], &mut ws, &mut line)
}

fn line_end(text: &[u8], from: usize) -> usize
    requires { from ≤ length text.now }
    ensures { (from ≤ result) × (result ≤ length text.now) }
{
    for i in from..text.len() {
        if text[i] == b'\n' {
            return i;
        }
    }
    text.len()
}

// No line takes less than its end, so that there are no more of them than bytes.
fn examples(out: &impl Print, text: &[u8]) -> io::Result<()> {
    let mut from: usize = 0;
    for _ in 0..text.len() {
        if text.len() <= from {
            return Ok(());
        }
        let to = line_end(text, from);
        example(out, &text[from..to])?;
        from = to + 1;
    }
    Ok(())
}

// Room for the examples: 65,536 zeros, of which only the number is promised, so that nobody counts them one by one.
fn room() -> [u8; 65536]
    ensures { 65536 ≡ length result }
{
    [0; 65536]
}

// The bytes that are read until the buffer is full or the input ends, and how many there are at the buffer's front.
fn read_full(input: &mut impl Read, buffer: &mut [u8]) -> io::Result<usize> {
    let mut done = 0;
    for _ in 0..u64::MAX {
        if buffer.len() <= done {
            return Ok(done);
        }
        match input.read(&mut buffer[done..])? {
            0 => return Ok(done),
            n => done = ground::capped_sum(done, n),
        }
    }
    Ok(done)
}

fn main(rt: HostRuntime) -> io::Result<()> {
    let mut text = room();
    let n = read_full(&mut rt.stdin(), &mut text)?;
    examples(&rt, ground::front(&text, n))
}
