// The words of the command line: what each option is, the number of rows, the zone, and what -fits asks for.
#![tactic(auto)]

ghost use Rattle.std.specs.Prelude.{◌≡◌};
ghost use Rattle.options.specs.Options.{word_of, asks_repair, whole_from, whole_number, rows_of, zone_of, kind_of};

use fields::Field;
use ground::both;
use numbers::NOUGHT;
use writing::same;

// The minutes of a day but one.
const MOST_MINUTES: usize = 1439;

#[derive(Clone, Copy, PartialEq, Eq)]
pub enum Word {
    Rows,
    Font,
    Out,
    Store,
    Quiet,
    Zone,
    NoClock,
    Fits,
    Unknown,
    File,
}

// What may be asked for.
#[derive(Clone, Copy, PartialEq, Eq)]
pub enum Kind {
    Form,
    Picture,
}

// What a word of the command line is. A chain of tests: of a pattern that is a byte string a proof learns the length alone.
#[tactic(auto, unfolding(crate::specs::Options::word_of))]
pub fn word_of(text: &[u8]) -> Word
    ensures { result ≡ word_of text.now }
{
    if same(text, b"-rows") {
        return Word::Rows;
    }
    if same(text, b"-font") {
        return Word::Font;
    }
    if same(text, b"-out") {
        return Word::Out;
    }
    if same(text, b"-store") {
        return Word::Store;
    }
    if same(text, b"-quiet") {
        return Word::Quiet;
    }
    if same(text, b"-zone") {
        return Word::Zone;
    }
    if same(text, b"-noclock") {
        return Word::NoClock;
    }
    if same(text, b"-fits") {
        return Word::Fits;
    }
    if ground::byte(text, 0) == b'-' {
        return Word::Unknown;
    }
    Word::File
}

// Whether a word asks for the repair of a store. Who knows of repairs asks this before `word_of`, to which the word is no option.
#[tactic(auto, unfolding(crate::specs::Options::asks_repair))]
pub fn asks_repair(text: &[u8]) -> bool
    ensures { result ≡ asks_repair text.now }
{
    same(text, b"-repair")
}

// A number that was found at the front of a text, where it fills it.
fn filling(text: &[u8], found: Field) -> Option<usize>
    ensures { result ≡ whole_from text.now found }
{
    let Ok((n, end)) = found else {
        return None;
    };
    if end < text.len() {
        return None;
    }
    Some(n)
}

// A number of 1 to 9 digits that fills the text.
#[tactic(auto, unfolding(crate::specs::Options::whole_number))]
pub fn whole_number(text: &[u8]) -> Option<usize>
    ensures { result ≡ whole_number text.now }
{
    filling(text, numbers::number(text, 0))
}

// A number of rows, 1 to 4,000, written in decimal.
#[tactic(auto, unfolding(crate::specs::Options::rows_of))]
pub fn rows(text: &[u8]) -> Option<usize>
    ensures { result ≡ rows_of text.now }
{
    let n = whole_number(text)?;
    if both(0 < n, n <= 4000) {
        return Some(n);
    }
    None
}

// A zone in minutes ahead of UTC, with or without sign and less than a day, as a number with a sign counts.
#[tactic(auto, unfolding(crate::specs::Options::zone_of))]
pub fn zone(text: &[u8]) -> Option<usize>
    ensures { result ≡ zone_of text.now }
{
    let v = filling(text, numbers::signed(text, 0))?;
    if both(NOUGHT - MOST_MINUTES <= v, v <= NOUGHT + MOST_MINUTES) {
        return Some(v);
    }
    None
}

// What the word behind -fits asks for.
#[tactic(auto, unfolding(crate::specs::Options::kind_of))]
pub fn kind_of(text: &[u8]) -> Option<Kind>
    ensures { result ≡ kind_of text.now }
{
    if same(text, b"form") {
        return Some(Kind::Form);
    }
    if same(text, b"picture") {
        return Some(Kind::Picture);
    }
    None
}
