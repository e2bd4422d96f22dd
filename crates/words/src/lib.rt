// The answers in words: the line that the station's program says of a call.
//
// Paper 01's table gives each answer a number; specs/Words.antt gives it its words, and the line `line K: A, WORDS: LINE`. Under a line that is refused with
// a place a second one has a mark; it stands under its byte (proofs/Marks.antt, `mark-under`). Under a line that is refused because portions or entries ran out a
// second one says how much is left of both. Who asks whether something fits is answered in the same words behind another lead, `form NAME: ` or
// `picture NAME, SIZE bytes: `. Each function writes the text of its definition into a buffer, as far as there is room, and answers the place after it.
#![tactic(auto)]

ghost use Rattle.std.specs.Prelude.{◌≡◌, ◌+◌, min, length, drop};
ghost use Rattle.writing.specs.Writing.{Wrote};
ghost use Rattle.answers.specs.Answers.{place_of};
ghost use Rattle.words.specs.Words.{
  words_of,
  lead_of,
  number_word,
  reason_of,
  said_of,
  blanks,
  mark_of,
  share_of,
  shares_of,
  left_of,
  asked_of,
  fit_words,
  fits_of,
  fits_left_of,
};
ghost use Rattle.words.specs.Lines.{lines_left, from_line, line_of};

use answers::{Answer, is_taken, number, place};
use classes::{Class, run_end};
use ground::{back, capped_sum, fill, front, least, less};
use sentences::{put, put_numbered};
use store::BYTES_AN_ENTRY;
use writing::put_decimal;

// The words of each answer on a line of its own, in the order of their numbers.
const WORDS: [u8; 635] = *b"\
    taken\n\
    a lent length is wrong\n\
    the font breaks its rules\n\
    the store is not sound\n\
    the line has no end, or a GM lacks its bytes\n\
    no line end in the first 256 bytes\n\
    the line has not the written form\n\
    a number, name or prompt outside its limits\n\
    a command while labels are owed\n\
    the command has no place here\n\
    name in use\n\
    name not found\n\
    declared before in this form\n\
    variable or counter not declared\n\
    a modifier reaches past the declared length\n\
    unfit data\n\
    not a legal picture\n\
    value does not fit its declaration\n\
    P while a declared value is unset\n\
    too few free portions\n\
    the listing exceeds the output\n\
    no label is owed\n\
    a counter runs out\n\
    no empty entry\n";

// How many lines are still to be passed after a byte.
fn passed(b: u8, left: usize) -> usize
    ensures { result ≡ lines_left b left }
{
    if b == b'\n' { less(left, 1) } else { left }
}

// Where line k of a text starts, counted from 0.
fn line_start(text: &[u8], k: usize) -> usize
    ensures { drop result text.now ≡ from_line k text.now }
{
    let mut left = k;
    for (i, b) in text.iter().enumerate() {
        if left == 0 {
            return i;
        }
        left = passed(*b, left);
    }
    text.len()
}

// Line k of a text, without its end.
fn line_of<'a>(text: &'a [u8], k: usize) -> &'a [u8]
    ensures { result.now ≡ line_of k text.now }
{
    let rest = back(text, line_start(text, k));
    front(rest, run_end(rest, Class::Inside, 0))
}

// The table's answers, in words.
fn put_words(a: Answer, out: &mut [u8], at: usize) -> usize
    ensures { Wrote out.old at (words_of a) result out.new }
{
    let words = WORDS;
    put(out, at, line_of(&words, number(a) as usize))
}

// `line K: `
fn put_lead(k: usize, out: &mut [u8]) -> usize
    ensures { Wrote out.old 0 (lead_of k) result out.new }
{
    let colon = put_numbered(out, 0, b"line ", k);
    put(out, colon, b": ")
}

// `A, `
fn put_number(a: Answer, out: &mut [u8], at: usize) -> usize
    ensures { Wrote out.old at (number_word a) result out.new }
{
    let comma = put_decimal(number(a) as usize, out, at);
    put(out, comma, b", ")
}

// `A, WORDS: `
fn put_reason(a: Answer, out: &mut [u8], at: usize) -> usize
    ensures { Wrote out.old at (reason_of a) result out.new }
{
    let word = put_number(a, out, at);
    let colon = put_words(a, out, word);
    put(out, colon, b": ")
}

// `line K: A, WORDS: LINE`
pub fn said(k: usize, a: Answer, line: &[u8], out: &mut [u8]) -> usize
    ensures { Wrote out.old 0 (said_of k a line.now) result out.new }
{
    let reason = put_lead(k, out);
    let text = put_reason(a, out, reason);
    let end = put(out, text, line);
    put(out, end, b"\n")
}

// How far behind the lead the mark stands.
fn indent(a: Answer) -> usize
    ensures { result ≡ length (reason_of a) + min 255 (place_of a) }
{
    let mut text = [0u8; 64];
    let wide = put_reason(a, &mut text, 0);
    wide + least(255, place(a))
}

fn put_blanks(out: &mut [u8], at: usize, n: usize) -> usize
    ensures { Wrote out.old at (blanks n) result out.new }
{
    fill(out, at, n, b' ');
    least(capped_sum(at, n), out.len())
}

// The lead of a refused line again, and a mark under the byte at the place that its answer points to.
pub fn mark(k: usize, a: Answer, out: &mut [u8]) -> usize
    ensures { Wrote out.old 0 (mark_of k a) result out.new }
{
    let reason = put_lead(k, out);
    let end = put_blanks(out, reason, indent(a));
    put(out, end, b"^\n")
}

// `N of M`, and what these are.
fn put_share(n: usize, m: usize, text: &[u8], out: &mut [u8], at: usize) -> usize
    ensures { Wrote out.old at (share_of n m text.now) result out.new }
{
    let of = put_numbered(out, at, b"", n);
    let end = put_numbered(out, of, b" of ", m);
    put(out, end, text)
}

// How much is left of both, portions and entries.
fn put_shares(links: &[u16], directory: &[u8], out: &mut [u8], at: usize) -> usize
    ensures { Wrote out.old at (shares_of links.now directory.now) result out.new }
{
    let free = store::free_count(links);
    let entries = put_share(free, links.len(), b" portions are free, ", out, at);
    let empty = room::empty_count(directory);
    let all = directory.len() / BYTES_AN_ENTRY;
    put_share(empty, all, b" entries are empty\n", out, entries)
}

// The lead of a refused line again, and how much is left.
pub fn left(k: usize, links: &[u16], directory: &[u8], out: &mut [u8]) -> usize
    ensures { Wrote out.old 0 (left_of k links.now directory.now) result out.new }
{
    let portions = put_lead(k, out);
    put_shares(links, directory, out, portions)
}

// `form NAME: `, or `picture NAME, SIZE bytes: `
fn put_asked(picture: bool, name: &[u8], size: usize, out: &mut [u8]) -> usize
    ensures { Wrote out.old 0 (asked_of picture name.now size) result out.new }
{
    if picture {
        let title = put(out, 0, b"picture ");
        let comma = put(out, title, name);
        let bytes = put_numbered(out, comma, b", ", size);
        return put(out, bytes, b" bytes: ");
    }
    let title = put(out, 0, b"form ");
    let colon = put(out, title, name);
    put(out, colon, b": ")
}

// The words of an answer to whoever asks whether something fits.
fn put_fit_words(a: Answer, out: &mut [u8], at: usize) -> usize
    ensures { Wrote out.old at (fit_words a) result out.new }
{
    if is_taken(a) {
        return put(out, at, b"it fits");
    }
    put_words(a, out, at)
}

// What was asked for, and whether it fits.
pub fn fits(picture: bool, name: &[u8], size: usize, a: Answer, out: &mut [u8]) -> usize
    ensures { Wrote out.old 0 (fits_of picture name.now size a) result out.new }
{
    let reason = put_asked(picture, name, size, out);
    let word = put_number(a, out, reason);
    let end = put_fit_words(a, out, word);
    put(out, end, b"\n")
}

// What was asked for again, and how much is left.
pub fn fits_left(
    picture: bool,
    name: &[u8],
    size: usize,
    links: &[u16],
    directory: &[u8],
    out: &mut [u8],
) -> usize
    ensures { Wrote out.old 0 (fits_left_of picture name.now size links.now directory.now) result out.new }
{
    let portions = put_asked(picture, name, size, out);
    put_shares(links, directory, out, portions)
}
