// The list of what was said of the entries (paper 02, §11): "one line for each entry not of kind 0, in directory order: its number from 0, a space, and `kept` or
// the first reason to drop it: `name`, `chain`, `size`, `shared` or `content`".
//
// What was said comes from `verdicts`, a number for each entry. `list` writes the lines (specs/Lines.antt) to the front of an output, as far as there is room;
// `list_length` tells how many bytes they are, so that a caller can refuse an output that is too short before anything is touched.
#![tactic(auto)]

ghost use Rattle.std.specs.Prelude.{◌≡◌, length};
ghost use Rattle.writing.specs.Writing.{Wrote};
ghost use Rattle.verdict_list.specs.Lines.{word, verdict_line, line_at, verdict_list};

use ground::{byte, least};
use sentences::put;
use store::MOST_ENTRIES;
use writing::put_decimal;

// 512 lines of at most 12 bytes: three digits, a space, `content`, LF.
const MOST_BYTES: usize = 6144;

fn put_word(v: u8, out: &mut [u8], at: usize) -> usize
    ensures { Wrote out.old at (word v) result out.new }
{
    if v == verdicts::KEPT {
        return put(out, at, b"kept");
    }
    if v == verdicts::FOR_NAME {
        return put(out, at, b"name");
    }
    if v == verdicts::FOR_CHAIN {
        return put(out, at, b"chain");
    }
    if v == verdicts::FOR_SIZE {
        return put(out, at, b"size");
    }
    if v == verdicts::FOR_SHARED {
        return put(out, at, b"shared");
    }
    put(out, at, b"content")
}

// "its number from 0, a space, and" the word, then LF.
fn put_line(i: usize, v: u8, out: &mut [u8], at: usize) -> usize
    ensures { Wrote out.old at (verdict_line i v) result out.new }
{
    let space = put_decimal(i, out, at);
    let from = put(out, space, b" ");
    let end = put_word(v, out, from);
    put(out, end, b"\n")
}

// "one line for each entry not of kind 0": nothing was said of the others.
fn put_entry(verdicts: &[u8], i: usize, out: &mut [u8], at: usize) -> usize
    ensures { Wrote out.old at (line_at verdicts.now i) result out.new }
{
    let v = byte(verdicts, i);
    if v == verdicts::UNSAID {
        return least(at, out.len());
    }
    put_line(i, v, out, at)
}

// Writes the list to the front of the output, as far as there is room; the place after it.
pub fn list(verdicts: &[u8], output: &mut [u8]) -> usize
    ensures { Wrote output.old 0 (verdict_list verdicts.now) result output.new }
{
    let mut at: usize = 0;
    for i in 0..MOST_ENTRIES {
        at = put_entry(verdicts, i, output, at);
    }
    at
}

// How long the list is.
pub fn list_length(verdicts: &[u8]) -> usize
    ensures { result ≡ length (verdict_list verdicts.now) }
{
    let mut lines = [0u8; MOST_BYTES];
    list(verdicts, &mut lines)
}
