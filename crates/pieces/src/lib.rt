// What data shows: the piece of each element, side by side.
//
// "One or more elements side by side": "Each piece is shown as a part of the line or of the value; a counter's is a part of its digits." `piece` hands such
// a part back as it lies, in the line or in the value, and `assemble` lays the pieces of a line's data one behind another, for the values that are
// lent, the session's counters and its clock. What is laid is the definition's data (specs/Data.antt), whatever the line and the values hold. The elements of a
// line are read in crate `fields`, and which data may stand in a form is judged in crate `fitness`.
#![tactic(auto)]

ghost use Rattle.std.specs.Prelude.{◌≡◌};
ghost use Rattle.pieces.specs.Data.{part_of, piece_of, piece_at, data_of, values_in, row, shown, lay};

use calendar::Clock;
use counters::{Counters, digits_of};
use declarations::Declared;
use elements::{Element, Part, What};
use ground::{back, front, least, less, put};
use stamps::stamp_text;
use stored_values::variable_at;

// What a modifier takes of a value.
pub fn part_of(v: &[u8], p: Part) -> &[u8]
    ensures { result.now ≡ part_of p v.now }
{
    match p {
        Part::Whole => v,
        Part::First(n) => front(v, n),
        Part::Last(n) => back(v, less(v.len(), n)),
        Part::Middle(p, n) => front(back(v, less(p, 1)), n),
    }
}

// An element's bytes: a quoted text without its quotes, or a part of the value.
pub fn piece<'a>(line: &'a [u8], value: &'a [u8], e: Element) -> &'a [u8]
    ensures { result.now ≡ piece_of line.now value.now e }
{
    let what = e.what;
    match what {
        What::Text => front(back(back(line, e.at), 1), less(e.length, 2)),
        What::Variable(_, p) => part_of(value, p),
        What::Counter(_, p) => part_of(value, p),
        What::Stamped(_) => value,
    }
}

// A piece behind what is laid: the place after it.
fn lay_piece(out: &mut [u8], at: usize, text: &[u8]) -> usize
    ensures { row result out.new ≡ lay text.now (row at out.old) }
{
    let room = less(out.len(), at);
    let next = at + least(room, text.len());
    put(out, at, text);
    next
}

// An element's piece behind what is laid.
fn lay_element<'a>(
    line: &'a [u8],
    d: Declared,
    values: &'a [u8],
    c: Counters,
    clock: Clock,
    e: Element,
    out: &mut [u8],
    at: usize,
) -> usize
    ensures { row result out.new ≡ lay (piece_at line.now d (values_in values.now c clock) e) (row at out.old) }
{
    let what = e.what;
    match what {
        What::Text => lay_piece(out, at, piece(line, front(line, 0), e)),
        What::Variable(k, _) => lay_piece(out, at, piece(line, variable_at(values, k), e)),
        What::Counter(k, _) => {
            let w = d.width_at(k);
            let digits = digits_of(c.value_at(k), w);
            lay_piece(out, at, piece(line, front(&digits, w), e))
        }
        What::Stamped(stamp) => {
            let formats = d.formats;
            let text = stamp_text(stamp, clock, formats.of(stamp));
            lay_piece(out, at, piece(line, front(&text.bytes, text.length), e))
        }
    }
}

// The data that starts at a place of a line, from the first byte of out on; the number of bytes laid.
pub fn assemble<'a>(
    line: &'a [u8],
    at: usize,
    d: Declared,
    values: &'a [u8],
    c: Counters,
    clock: Clock,
    out: &mut [u8],
) -> usize
    ensures { row result out.new ≡ shown (data_of line.now at d (values_in values.now c clock)) out.old }
{
    let mut n: usize = 0;
    let mut i = at;
    // A while: where the next element begins is known once this one is read.
    while i < line.len() {
        let Ok(e) = elements::element_at(line, i) else {
            return n;
        };
        n = lay_element(line, d, values, c, clock, e, out, n);
        i = e.at + e.length;
    }
    n
}
