// The lines of a content (paper 01): "A line is up to 255 bytes, then LF (0Ah)." `line_into` copies the next line ahead of a reader, or says that none is
// left or that what follows is no line; a run of bytes before the LF goes at once. On any memory, as `contents` reads it.
#![tactic(auto)]

ghost use Rattle.std.specs.Prelude.{◌≡◌, ℕ, ◌+◌, ◌-◌, ◌*◌, ◌≤◌, ◌<◌, get_or};
ghost use Rattle.store.specs.Chain.{bytes_a_portion, last_place};
ghost use Rattle.contents.specs.Run.{copied};
ghost use Rattle.content_lines.specs.Lines.{line_feed, longest_line, next_line, lined};

use contents::{Cursor, LAST_PLACE, byte_at, place_after, portion_after};
use ground::{least, put_byte};
use store::BYTES_A_PORTION;

// "up to 255 bytes".
const LONGEST_LINE: usize = 255;

// What a reader finds next: a line of a length, with the reader behind its LF; the end; or no line of at most 255 bytes. An enum of its own, for
// `Result<Option<(usize, Cursor)>, Bad>` would wrap the line twice and name none of the three: no plainer.
#[derive(Clone, Copy)]
pub enum Next {
    Line(usize, Cursor),
    End,
    Bad,
}

// Copies a run of bytes from place `at` of portion p on to place n of a buffer, at most so many, none but those before the portion's last, and up to the next
// LF: how many bytes that are.
fn line_run(store: &[u8], p: usize, at: usize, most: usize, buffer: &mut [u8], n: usize) -> usize
    requires { n + most ≤ longest_line }
    ensures { (result ≤ most) × (result ≤ last_place - at) × (buffer.new ≡ copied buffer.old n store.now (p * bytes_a_portion + at) result) × ((j : ℕ) → j < result → get_or store.now (p * bytes_a_portion + at + j) 0 ≡ line_feed → ⊥) }
{
    if store.len() / BYTES_A_PORTION <= p {
        return 0;
    }
    if LAST_PLACE <= at {
        return 0;
    }
    if buffer.len() < LONGEST_LINE {
        return 0;
    }
    let from = p * BYTES_A_PORTION + at;
    let m = least(most, LAST_PLACE - at);
    for j in 0..m {
        let b = store[from + j];
        if b == b'\n' {
            return j;
        }
        buffer[n + j] = b;
    }
    m
}

// The next line ahead of a reader, copied without its LF to the front of a buffer that has 255 bytes or more.
pub fn line_into(store: &[u8], links: &[u16], place: Cursor, buffer: &mut [u8]) -> Next
    ensures { (result ≡ next_line store.now links.now place) × (buffer.new ≡ lined store.now links.now place buffer.old) }
{
    let mut p = place.portion;
    let mut at = place.at;
    let mut left = place.left;
    let mut n: usize = 0;
    // A while: a turn goes on by a run of bytes and the byte behind it, as many as lie in the portion.
    while 0 < left {
        let r = line_run(store, p, at, least(left - 1, LONGEST_LINE - n), buffer, n);
        at += r;
        left -= r;
        n += r;
        let b = byte_at(store, p, at);
        p = portion_after(links, p, at);
        at = place_after(at);
        left -= 1;
        if b == b'\n' {
            return Next::Line(
                n,
                Cursor {
                    portion: p,
                    at,
                    left,
                },
            );
        }
        if n == LONGEST_LINE {
            return Next::Bad;
        }
        put_byte(buffer, n, b);
        n += 1;
    }
    if n == 0 { Next::End } else { Next::Bad }
}
