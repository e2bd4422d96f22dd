// The lines of a stored form, read one after another.
//
// A form is kept as "a row of normalised lines": each an item in normal form of at most 255 bytes, then LF. `next_line` reads the line ahead in the store's
// chain and goes behind it, on any memory: what no form may have, a line that is too long or has no end, is an empty line. What a line holds is said in crate
// `kept_line`, which items recording takes in crate `recording`, what a whole form says in crate `forms`.
#![tactic(auto)]

ghost use Rattle.std.specs.Prelude.{◌≡◌, length};
ghost use Rattle.contents.specs.Content.{ahead, onward as onward_of};
ghost use Rattle.content_lines.specs.Lines.{lined};
ghost use Rattle.form_lines.specs.Walk.{line_in, behind};

use content_lines::Next;
use contents::Cursor;
use ground::less;

// A reader one byte on.
fn onward(links: &[u16], place: Cursor) -> Cursor
    ensures { result ≡ onward_of links.now place }
{
    let p = place.portion;
    let at = place.at;
    let left = less(place.left, 1);
    if at < 255 {
        return Cursor {
            portion: p,
            at: at + 1,
            left,
        };
    }
    let portion = store::link_at(links, p);
    Cursor {
        portion,
        at: 0,
        left,
    }
}

// A reader behind the first LF ahead, or at the end.
fn skip(store: &[u8], links: &[u16], place: Cursor) -> Cursor
    ensures { ahead store.now links.now result ≡ behind (ahead store.now links.now place) }
{
    let mut buffer = [0u8; 256];
    let mut ahead = place;
    // A loop: the reader goes along a chain of links, and there is no list to go over.
    'search: loop {
        match content_lines::line_into(store, links, ahead, &mut buffer) {
            Next::Line(_, after) => return after,
            Next::End => return ahead,
            Next::Bad => ahead = onward(links, ahead),
        }
    }
}

// How long the next line is, and a reader behind it.
#[derive(Clone, Copy)]
pub struct Line {
    pub n: usize,
    pub place: Cursor,
}

// The next line ahead of a reader, at the front of a buffer of 255 bytes or more. What no form may have, a line of more than 255 bytes or bytes with no
// LF, is as an empty line: it holds nothing.
pub fn next_line(store: &[u8], links: &[u16], place: Cursor, buffer: &mut [u8]) -> Line
    ensures { (buffer.new ≡ lined store.now links.now place buffer.old) × ((result.n ≡ length (line_in (ahead store.now links.now place))) × (ahead store.now links.now result.place ≡ behind (ahead store.now links.now place))) }
{
    let next = content_lines::line_into(store, links, place, buffer);
    match next {
        Next::Line(n, after) => Line { n, place: after },
        Next::End => Line { n: 0, place },
        Next::Bad => Line {
            n: 0,
            place: skip(store, links, place),
        },
    }
}
