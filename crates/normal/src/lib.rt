// The normal form of a line, as a form keeps it.
//
// Paper 01 keeps a recorded line with leading zeros dropped, names in capitals and signs written. `write` writes the normal form of a line
// into lent memory. The main theorem (proofs/Round.antt): reading the normal form of any line that is taken gives the same command with the same
// contents, and its normal form is itself, and no longer than a line may be. What a form does with its lines is said in the crates above.
#![tactic(auto)]

ghost use Rattle.std.specs.Prelude.{◌≡◌, ◌∷◌, ◌++◌, cond, ◌+◌, ◌≤◌, length, eqb};
ghost use Rattle.elements.specs.Elements.{elements};
ghost use Rattle.grammar.specs.Forms.{row_of, Form};
ghost use Rattle.writing.specs.Writing.{Wrote, decimal, cased, kept};
ghost use Rattle.normal.specs.Written.{part_written, stamp_written, what_written, data_written, placed_written, word_written, written_field, written_from, normal};

use elements::{Part, What, element_at};
use fields::word;
use formats::Stamp;
use grammar::table::line_up;
use heads::head_of;
use parts::{first, rest};
use row_fields::read_fields;
use writing::{copy, put, put_decimal, put_signed};

// Writes a modifier.
fn put_part(part: Part, out: &mut [u8], at: usize) -> usize
    requires { at ≤ length out.old }
    ensures { Wrote out.old at (part_written part) result out.new }
{
    match part {
        Part::Whole => at,
        Part::First(n) => {
            let next = put(out, at, b'L');
            put_decimal(n, out, next)
        }
        Part::Last(n) => {
            let next = put(out, at, b'R');
            put_decimal(n, out, next)
        }
        Part::Middle(p, n) => {
            let first = put(out, at, b'M');
            let dot = put_decimal(p, out, first);
            let next = put(out, dot, b'.');
            put_decimal(n, out, next)
        }
    }
}

// Writes a variable or a counter: its letter, its digit and its modifier.
fn put_held(letter: u8, k: usize, part: Part, out: &mut [u8], at: usize) -> usize
    requires { at ≤ length out.old }
    ensures { Wrote out.old at (letter ∷ (decimal k ++ part_written part)) result out.new }
{
    let digit = put(out, at, letter);
    let next = put_decimal(k, out, digit);
    put_part(part, out, next)
}

// Writes the two letters of the date or of the time of day.
fn put_stamp(stamp: Stamp, out: &mut [u8], at: usize) -> usize
    requires { at ≤ length out.old }
    ensures { Wrote out.old at (stamp_written stamp) result out.new }
{
    let next = put(out, at, b'T');
    match stamp {
        Stamp::Date => put(out, next, b'D'),
        Stamp::Time => put(out, next, b'T'),
    }
}

// Writes an element of the line.
fn put_element(
    line: &[u8],
    from: usize,
    count: usize,
    what: What,
    out: &mut [u8],
    at: usize,
) -> usize
    requires { at ≤ length out.old }
    ensures { Wrote out.old at (what_written line.now from count what) result out.new }
{
    match what {
        What::Text => copy(first(rest(line, from), count), false, out, at),
        What::Variable(k, part) => put_held(b'V', k, part, out, at),
        What::Counter(k, part) => put_held(b'C', k, part, out, at),
        What::Stamped(stamp) => put_stamp(stamp, out, at),
    }
}

// Writes the data that stands from a place on.
fn put_data(line: &[u8], p: usize, out: &mut [u8], at: usize) -> usize
    requires { at ≤ length out.old }
    ensures { Wrote out.old at (data_written line.now (elements line.now p)) result out.new }
{
    let mut place = at;
    let mut i = p;
    // A while: each element says how long it is, and so where the next begins.
    while i < line.len() {
        let Ok(e) = element_at(line, i) else {
            return place;
        };
        let what = e.what;
        place = put_element(line, e.at, e.length, what, out, place);
        i = e.at + e.length;
    }
    place
}

// Writes the quoted text of n bytes at a place, in capitals or as it is.
fn put_text(line: &[u8], p: usize, n: usize, fold: bool, out: &mut [u8], at: usize) -> usize
    requires { at ≤ length out.old }
    ensures { Wrote out.old at (cased fold (kept line.now p (n + 2))) result out.new }
{
    if n < line.len() {
        return copy(first(rest(line, p), n + 2), fold, out, at);
    }
    copy(rest(line, p), fold, out, at)
}

// How many letters a bar type has.
fn type_length(t: usize) -> usize
    ensures { result ≡ cond (eqb t 30) 3 1 }
{
    if t == 30 { 3 } else { 1 }
}

// Writes `B`, a comma and a place.
fn put_placed(place: u8, out: &mut [u8], at: usize) -> usize
    requires { at ≤ length out.old }
    ensures { Wrote out.old at (placed_written place) result out.new }
{
    let comma = put(out, at, b'B');
    let next = put(out, comma, b',');
    put(out, next, place)
}

// Writes the word of which v is the last letter.
fn put_word(v: usize, out: &mut [u8], at: usize) -> usize
    requires { at ≤ length out.old }
    ensures { Wrote out.old at (word_written v) result out.new }
{
    match v {
        word::NOTHING => put(out, at, b'N'),
        word::LINE => put(out, at, b'B'),
        word::CENTRE => put_placed(b'C', out, at),
        _ => put_placed(b'R', out, at),
    }
}

// Writes the field of value v at p that a byte of a form stands for.
fn put_field(line: &[u8], f: u8, v: usize, p: usize, out: &mut [u8], at: usize) -> usize
    requires { at ≤ length out.old }
    ensures { Wrote out.old at (written_field f line.now v p) result out.new }
{
    match f {
        b'n' => put_decimal(v, out, at),
        b'w' => put_decimal(v, out, at),
        b'y' => put_decimal(v, out, at),
        b't' => put_text(line, p, v, false, out, at),
        b'u' => put_text(line, p, v, false, out, at),
        b'a' => put_text(line, p, v, true, out, at),
        b'z' => put_text(line, p, v, true, out, at),
        b's' => put_signed(v, out, at),
        b'm' => copy(first(rest(line, p), 1), false, out, at),
        b'j' => copy(first(rest(line, p), 1), false, out, at),
        b'k' => copy(first(rest(line, p), type_length(v)), false, out, at),
        b'h' => put_word(v, out, at),
        b'd' => put_data(line, p, out, at),
        b'f' => copy(rest(line, p), false, out, at),
        b'g' => copy(rest(line, p), false, out, at),
        _ => put(out, at, f),
    }
}

// Writes the fields of a row.
pub fn put_row(line: &[u8], row: usize, vs: &[usize; 18], ps: &[usize; 18], out: &mut [u8]) -> usize
    ensures { Wrote out.old 0 (written_from (row_of row).fields line.now vs.now ps.now) result out.new }
{
    let up = line_up(row);
    let mut place = 0;
    for i in 0..18usize {
        let f = up[i];
        if f == b' ' {
            return place;
        }
        let v = vs[i];
        let p = ps[i];
        place = put_field(line, f, v, p, out, place);
    }
    place
}

// Writes the normal form of a line, without LF, as far as it fits, and answers how many bytes were written.
pub fn write(line: &[u8], out: &mut [u8]) -> usize
    ensures { Wrote out.old 0 (normal line.now) result out.new }
{
    let Some(row) = head_of(line) else {
        return 0;
    };
    let mut vs = [0usize; 18];
    let mut ps = [0usize; 18];
    if read_fields(line, row, &mut vs, &mut ps).is_err() {
        return 0;
    }
    put_row(line, row, &vs, &ps, out)
}
