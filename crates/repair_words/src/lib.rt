// What the station's program says of a store that it repairs (paper 02, §11): a line for each entry that is not empty, the sum, and which file the
// repaired store is.
//
// Each function writes the text of its definition (specs/RepairWords.antt) into a buffer, as far as there is room, and answers the place after it. What is said
// of an entry goes by its verdict (crate `verdicts`); which of these lines are told as done, and which as dropped, is left to the program.
#![tactic(auto)]

ghost use Rattle.writing.specs.Writing.{Wrote};
ghost use Rattle.repair_words.specs.RepairWords.{title_of, content_reason, reason_of, verdict_of, entry_of, sum_of, made_of};

use sentences::{put, put_numbered};
use store::MOST_PORTIONS;
use verdicts::{FOR_CHAIN, FOR_NAME, FOR_SHARED, FOR_SIZE, KEPT};

// `form "NAME"` or `picture "NAME"`
fn put_title(kind: usize, name: &[u8], out: &mut [u8], at: usize) -> usize
    ensures { Wrote out.old at (title_of kind name.now) result out.new }
{
    if kind == 2 {
        let title = put(out, at, b"picture \"");
        let quote = put(out, title, name);
        return put(out, quote, b"\"");
    }
    let title = put(out, at, b"form \"");
    let quote = put(out, title, name);
    put(out, quote, b"\"")
}

// "Unfinished forms are dropped for content".
fn put_content(kind: usize, out: &mut [u8], at: usize) -> usize
    ensures { Wrote out.old at (content_reason kind) result out.new }
{
    if kind == 3 {
        return put(out, at, b"it is unfinished");
    }
    if kind == 2 {
        return put(out, at, b"what it holds breaks the rules of a picture");
    }
    put(out, at, b"what it holds breaks the rules of a form")
}

fn put_reason(v: u8, kind: usize, out: &mut [u8], at: usize) -> usize
    ensures { Wrote out.old at (reason_of v kind) result out.new }
{
    if v == FOR_CHAIN {
        return put(out, at, b"its chain of portions is broken");
    }
    if v == FOR_SIZE {
        return put(
            out,
            at,
            b"its size does not agree with its portions, or is above the 32768 bytes of a picture",
        );
    }
    if v == FOR_SHARED {
        return put(
            out,
            at,
            b"it shares a portion with an entry before it that is kept",
        );
    }
    put_content(kind, out, at)
}

fn put_verdict(v: u8, kind: usize, name: &[u8], out: &mut [u8], at: usize) -> usize
    ensures { Wrote out.old at (verdict_of v kind name.now) result out.new }
{
    if v == FOR_NAME {
        return put(
            out,
            at,
            b"dropped: its kind or name is wrong, or an entry before it has the name\n",
        );
    }
    let more = put_title(kind, name, out, at);
    if v == KEPT {
        return put(out, more, b", kept\n");
    }
    let reason = put(out, more, b", dropped: ");
    let end = put_reason(v, kind, out, reason);
    put(out, end, b"\n")
}

// The line of entry i, of this verdict, kind and name.
pub fn entry(i: usize, v: u8, kind: usize, name: &[u8], out: &mut [u8]) -> usize
    ensures { Wrote out.old 0 (entry_of i v kind name.now) result out.new }
{
    let colon = put_numbered(out, 0, b"entry ", i);
    let verdict = put(out, colon, b": ");
    put_verdict(v, kind, name, out, verdict)
}

// How many entries are kept and dropped, and how many portions are free.
pub fn sum(keeps: usize, drops: usize, free: usize, out: &mut [u8]) -> usize
    ensures { Wrote out.old 0 (sum_of keeps drops free) result out.new }
{
    let more = put_numbered(out, 0, b"", keeps);
    let rest = put_numbered(out, more, b" kept, ", drops);
    let of = put_numbered(out, rest, b" dropped, ", free);
    let end = put_numbered(out, of, b" of ", MOST_PORTIONS);
    put(out, end, b" portions free\n")
}

// Which file is the repaired store, for labels of so many rows, and that the old one is as it was.
pub fn made(new: &[u8], rows: usize, old: &[u8], out: &mut [u8]) -> usize
    ensures { Wrote out.old 0 (made_of new.now rows old.now) result out.new }
{
    let file = put(out, 0, b"the repaired store is ");
    let most = put(out, file, new);
    let unit = put_numbered(out, most, b", for labels of up to ", rows);
    let last = put(out, unit, b" rows; ");
    let end = put(out, last, old);
    put(out, end, b" is as it was\n")
}
