// The fields of a command line, one at a time: texts, letters, bar types, what stands under bars, and bytes that stand for themselves.
//
// Paper 01 writes a line as letters, numbers, quoted texts and data side by side. Each function here reads one such field at a place of a
// line and answers its value and the place after it, or that the written form is not there, with the place at fault. Numbers and data are read in the same
// way, in crates `numbers` and `data_field`. Any line and any place is answered. Which fields make up a command, and what is within its limits, is
// said in crate `read`.
#![tactic(auto)]

pub mod word; // the words that say what stands under bars

ghost use Rattle.std.specs.Prelude.{◌≡◌, ◌<◌, length, get_or};
ghost use Rattle.fields.specs.Field.{text_at, letter_at, byte_at, type_at, kind_from, is_place, place_behind, place_cut, word_from, word_ends, word_to, pointed, under_at, under_from, stop_of};

use classes::{Class, in_class, run_end};
use ground::{byte, wide};
use kinds::{Kind, Place, Under};

// What reading one field finds: its value and the place after it; or that the written form is not there, and the place at fault.
pub type Field = Result<(usize, usize), usize>;

// Where the reading of a field stopped: behind the field, or at the fault.
pub fn stop(found: Field) -> usize
    ensures { result ≡ stop_of found }
{
    match found {
        Ok((_, end)) => end,
        Err(fault) => fault,
    }
}

// The place to point to where a piece that starts at a place goes wrong at another: its first byte, or the LF where the line ends within it.
pub fn point(line: &[u8], at: usize, fault: usize) -> usize
    ensures { result ≡ pointed line.now at fault }
{
    if fault < line.len() { at } else { fault }
}

// Whether a word ends at a place: a comma stands there, or the line ends.
fn word_ends(line: &[u8], end: usize) -> bool
    ensures { result ≡ word_ends line.now end }
{
    if line.len() <= end {
        return true;
    }
    line[end] == b','
}

// The word of a value from a place to another, where it ends.
fn word_to(line: &[u8], start: usize, v: usize, end: usize) -> Field
    ensures { result ≡ word_to line.now start v end }
{
    if word_ends(line, end) {
        return Ok((v, end));
    }
    Err(start)
}

// Quoted text; its value is its length.
#[tactic(auto, unfolding(crate::specs::Field::text_at))]
pub fn text(line: &[u8], at: usize) -> Field
    ensures { result ≡ text_at line.now at }
{
    if line.len() <= at {
        return Err(at);
    }
    if line[at] != b'"' {
        return Err(at);
    }
    let start = at + 1;
    let end = run_end(line, Class::Quoted, start);
    if line.len() <= end {
        return Err(line.len());
    }
    if line[end] != b'"' {
        return Err(at);
    }
    Ok((end - start, end + 1))
}

// A byte that stands for itself.
#[tactic(auto, unfolding(crate::specs::Field::byte_at))]
pub fn literal(line: &[u8], b: u8, at: usize) -> Field
    ensures { result ≡ byte_at b line.now at }
{
    if line.len() <= at {
        return Err(at);
    }
    if line[at] != b {
        return Err(at);
    }
    Ok((wide(b), at + 1))
}

// A word of one letter of a class; its value is the letter.
#[tactic(auto, unfolding(crate::specs::Field::letter_at))]
pub fn letter(line: &[u8], k: Class, at: usize) -> Field
    ensures { result ≡ letter_at k line.now at }
{
    if line.len() <= at {
        return Err(at);
    }
    let b = line[at];
    if in_class(k, b) {
        return word_to(line, at, wide(b), at + 1);
    }
    Err(at)
}

// The bar type that starts with the `E` at a place; the line may end within it. Asked for by `bar_type` alone, where an `E` stands.
#[tactic(auto, unfolding(crate::specs::Field::type_at))]
fn type_from(line: &[u8], at: usize) -> Field
    requires { get_or line.now at 0 ≡ 69 }
    ensures { result ≡ type_at line.now at }
{
    if line.len() == at + 1 {
        return Err(line.len());
    }
    if byte(line, at + 1) != b'3' {
        return Err(at);
    }
    if line.len() == at + 2 {
        return Err(line.len());
    }
    if byte(line, at + 2) != b'0' {
        return Err(at);
    }
    word_to(line, at, 30, at + 3)
}

// A bar type: 1, 2, 3 or 30 for `1`, `2`, `3` or `E30`.
#[tactic(auto, unfolding(crate::specs::Field::type_at))]
pub fn bar_type(line: &[u8], at: usize) -> Field
    ensures { result ≡ type_at line.now at }
{
    let b = byte(line, at);
    match b {
        b'1' => word_to(line, at, 1, at + 1),
        b'2' => word_to(line, at, 2, at + 1),
        b'3' => word_to(line, at, 3, at + 1),
        b'E' => type_from(line, at),
        _ => Err(at),
    }
}

// What the data of a bar type is for.
#[tactic(auto, unfolding(crate::specs::Field::kind_from))]
pub fn kind_from(bar: usize) -> Kind
    ensures { result ≡ kind_from bar }
{
    match bar {
        3 => Kind::Code39,
        2 => Kind::Interleaved,
        30 => Kind::Ean13,
        _ => Kind::Code128,
    }
}

fn is_place(b: u8) -> bool
    ensures { result ≡ is_place b }
{
    match b {
        b'C' => true,
        b'R' => true,
        _ => false,
    }
}

// Whether a place stands between two commas behind a byte of the line. Asked for by `word_from` alone, as that is by `under`, where a `B` stands.
fn place_behind(line: &[u8], at: usize) -> bool
    requires { at < length line.now }
    ensures { result ≡ place_behind line.now at }
{
    if byte(line, at + 1) != b',' {
        return false;
    }
    if is_place(byte(line, at + 2)) {
        return byte(line, at + 3) == b',';
    }
    false
}

// Whether the line ends where a comma would make a place of the byte before it. Asked for by `word_from` alone, as `place_behind` is.
fn place_cut(line: &[u8], at: usize) -> bool
    requires { at < length line.now }
    ensures { result ≡ place_cut line.now at }
{
    if byte(line, at + 1) != b',' {
        return false;
    }
    if is_place(byte(line, at + 2)) {
        return line.len() == at + 3;
    }
    false
}

// The word that starts with the `B` at a place.
fn word_from(line: &[u8], at: usize) -> Field
    requires { at < length line.now }
    ensures { result ≡ word_from line.now at }
{
    if place_behind(line, at) {
        return Ok((wide(byte(line, at + 2)), at + 3));
    }
    if place_cut(line, at) {
        return Err(line.len());
    }
    word_to(line, at, word::LINE, at + 1)
}

// What stands under bars; its value is the last letter of the word.
#[tactic(auto, unfolding(crate::specs::Field::under_at))]
pub fn under(line: &[u8], at: usize) -> Field
    ensures { result ≡ under_at line.now at }
{
    match byte(line, at) {
        b'N' => word_to(line, at, word::NOTHING, at + 1),
        b'B' => word_from(line, at),
        _ => Err(at),
    }
}

// What the word says of which v is the last letter.
#[tactic(auto, unfolding(crate::specs::Field::under_from))]
pub fn under_from(v: usize) -> Under
    ensures { result ≡ under_from v }
{
    match v {
        word::NOTHING => Under::Nothing,
        word::CENTRE => Under::Line(Place::Centre),
        word::RIGHT => Under::Line(Place::Right),
        _ => Under::Line(Place::Left),
    }
}
