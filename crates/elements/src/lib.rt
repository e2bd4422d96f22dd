// One element of data.
//
// Paper 01, "Data": "quoted text, or `V`/`C` and a digit, then at most one of `Ln`, `Rn`, `Mp.n`"; and paper 02, §10: "In data, `TD` and `TT` become elements".
// `element_at` reads the element at a place of a line, and whoever steps through a line with it follows the definition `elements` (specs/Elements.antt). Any line
// and any place is answered.
#![tactic(auto)]

ghost use Rattle.std.specs.Prelude.{◌≡◌, ◌<◌, length};
ghost use Rattle.fields.specs.Field.{text_at};
ghost use Rattle.numbers.specs.Number.{number_at};
ghost use Rattle.elements.specs.Elements.{modifier_at, middle, quoted_from, held_from, held_at, stamped_from, stamped_at, element_at};

use fields::{literal, point, text};
use formats::Stamp;
use ground::byte;
use numbers::{digit, number};

// What a modifier takes of a value: all; the first n; the last n; n from place p, counted from 1.
#[derive(Clone, Copy)]
pub enum Part {
    Whole,
    First(usize),
    Last(usize),
    Middle(usize, usize),
}

// A quoted text; a part of a variable, by its number; a part of a counter; the date or the time of day.
#[derive(Clone, Copy)]
pub enum What {
    Text,
    Variable(usize, Part),
    Counter(usize, Part),
    Stamped(Stamp),
}

// An element of data: the place of its first byte, and how many bytes of the line it takes.
#[derive(Clone, Copy)]
pub struct Element {
    pub what: What,
    pub at: usize,
    pub length: usize,
}

// A modifier at a place, or none, and the place after it; or the place where a number or the point is missing.
#[tactic(auto, using(numbers::proofs::Laws::number_fault), unfolding(crate::specs::Elements::modifier_at))]
fn modifier_at(line: &[u8], at: usize) -> Result<(Part, usize), usize>
    ensures { result ≡ modifier_at line.now at }
{
    let b = byte(line, at);
    match b {
        b'L' => {
            let (n, end) = number(line, at + 1)?;
            Ok((Part::First(n), end))
        }
        b'R' => {
            let (n, end) = number(line, at + 1)?;
            Ok((Part::Last(n), end))
        }
        b'M' => middle_at(line, at + 1),
        _ => Ok((Part::Whole, at)),
    }
}

// What follows the letter of `Mp.n`.
#[tactic(auto, using(numbers::proofs::Laws::number_fault, fields::proofs::Laws::byte_fault))]
fn middle_at(line: &[u8], at: usize) -> Result<(Part, usize), usize>
    ensures { result ≡ middle line.now at (number_at line.now at) }
{
    let (p, dot) = number(line, at)?;
    let (_, next) = literal(line, b'.', dot)?;
    let (n, end) = number(line, next)?;
    Ok((Part::Middle(p, n), end))
}

fn held(counter: bool, b: u8, part: Part) -> What
    ensures { result ≡ held_from counter b part }
{
    if counter {
        What::Counter(digit(b), part)
    } else {
        What::Variable(digit(b), part)
    }
}

// The rest of an element that starts with `V` or `C`.
fn held_at(line: &[u8], at: usize, counter: bool) -> Result<Element, usize>
    requires { at < length line.now }
    ensures { result ≡ held_at counter line.now at }
{
    let b = byte(line, at + 1);
    match b {
        b'0'..=b'9' => match modifier_at(line, at + 2) {
            Ok((part, end)) => Ok(Element {
                what: held(counter, b, part),
                at,
                length: end - at,
            }),
            Err(fault) => Err(point(line, at, fault)),
        },
        _ => Err(point(line, at, at + 1)),
    }
}

fn quoted_at(line: &[u8], at: usize) -> Result<Element, usize>
    ensures { result ≡ quoted_from at (text_at line.now at) }
{
    let (n, _) = text(line, at)?;
    Ok(Element {
        what: What::Text,
        at,
        length: n + 2,
    })
}

fn stamped(at: usize, stamp: Stamp) -> Result<Element, usize>
    ensures { result ≡ stamped_from at stamp }
{
    Ok(Element {
        what: What::Stamped(stamp),
        at,
        length: 2,
    })
}

// `TD` or `TT`, behind the first letter: they take no modifier.
#[tactic(auto, unfolding(crate::specs::Elements::stamped_at))]
fn stamped_at(line: &[u8], at: usize) -> Result<Element, usize>
    requires { at < length line.now }
    ensures { result ≡ stamped_at line.now at }
{
    match byte(line, at + 1) {
        b'D' => stamped(at, Stamp::Date),
        b'T' => stamped(at, Stamp::Time),
        _ => Err(point(line, at, at + 1)),
    }
}

// The element at a place; or the place at fault. Variables and counters share one call, so that an element is built once and not copied from call to call.
#[tactic(auto, unfolding(crate::specs::Elements::element_at))]
pub fn element_at(line: &[u8], at: usize) -> Result<Element, usize>
    ensures { result ≡ element_at line.now at }
{
    let b = byte(line, at);
    match b {
        b'"' => quoted_at(line, at),
        b'V' | b'C' => held_at(line, at, b == b'C'),
        b'T' => stamped_at(line, at),
        _ => Err(at),
    }
}
