// Sound: whether a session and the memory beside it may be worked with.
//
// Paper 01's paragraph "Sound means: .." is `sound` (specs/Sound.antt), a conjunction with one named test a clause, in the paper's order and words.
// `is_sound` decides it exactly, for any session and any memory, in one pass over what is lent: each portion, each entry and each line of each form is
// looked at once, and the active form's lines once more. The clauses on the store, on what its entries hold and on the active form are decided in
// `store_check`, `content_check` and `activity_check`; the number of free portions (crate `free_number`) by a count of the links marked free, which on a store that
// is sound is the same (proofs/Numbered.antt). `entry_answer` is what every read and label call checks first: 1, 2 and 3. That every call
// keeps a sound memory sound is said in crate `keeps_sound`.
#![tactic(auto)]

ghost use Rattle.std.specs.Prelude.{◌≡◌, ◌&&◌, eqb, leb};
ghost use Rattle.kinds.specs.Bytes.{between};
ghost use Rattle.store.specs.Chain.{free_count};
ghost use Rattle.lent.specs.Lent.{world};
ghost use Rattle.session.specs.Session.{least_width, most_width, most_x, most_y};
ghost use Rattle.sound.specs.Sound.{times_ok, background_ok, sound};

use activity_check::wide;
use calendar::Clock;
pub use checks::entry_answer;
use counters::Counters;
use declarations::Declared;
use dots::BYTES_A_ROW;
use formats::{Formats, legal_formats};
use ground::both;
use session::{LEAST_WIDTH, MOST_WIDTH, MOST_X, MOST_Y, Session};

mod checks; // 1, 2 and 3, that every read and label call checks first

fn is_in(lo: usize, hi: usize, n: usize) -> bool
    ensures { result ≡ between lo hi n }
{
    both(lo <= n, n <= hi)
}

// "these numbers in their ranges; length at most N"
fn numbers_ok(width: u16, length: u16, turn: u8, x: u16, y: u16, rows: usize) -> bool
    ensures { result ≡ (between least_width most_width width && (between 1 rows length && (leb turn 1 && (leb x most_x && leb y most_y)))) }
{
    let wide_enough = is_in(LEAST_WIDTH as usize, MOST_WIDTH as usize, wide(width));
    let long_enough = is_in(1, rows, wide(length));
    both(
        wide_enough,
        both(long_enough, both(turn <= 1, both(x <= MOST_X, y <= MOST_Y))),
    )
}

// "Sound covers clock and formats."
fn times_ok(clock: Clock, formats: Formats) -> bool
    ensures { result ≡ times_ok clock formats }
{
    both(clock.is_legal(), legal_formats(formats))
}

// "no background dot outside width by length"
fn background_ok(background: &[u8], width: u16, length: u16) -> bool
    ensures { result ≡ background_ok width length background.now }
{
    outside::white_outside(background, wide(width), wide(length))
}

// "this number equals the portions of the lent store less those that the stored sizes call for": on a sound store these are the links marked free.
fn number_ok(free: u16, links: &[u16]) -> bool
    ensures { result ≡ eqb free (free_count links.now) }
{
    wide(free) == store::free_count(links)
}

// Whether a session and the memory beside it are sound. It stays a function of its own in what is built: what looks at pictures has a large room on the stack,
// and a function that it is built into takes that room behind its first tests, where the compiler's back end was seen to lose a number that it still needed.
#[inline(never)]
pub fn is_sound(
    session: Session,
    background: &[u8],
    store: &[u8],
    links: &[u16],
    directory: &[u8],
    values: &[u8],
) -> bool
    ensures { result ≡ sound session (world background.now store.now links.now directory.now values.now) }
{
    let rows = background.len() / BYTES_A_ROW;
    if !numbers_ok(
        session.width,
        session.length,
        session.turn,
        session.x,
        session.y,
        rows,
    ) {
        return false;
    }
    if !times_ok(session.clock, session.formats) {
        return false;
    }
    if !background_ok(background, session.width, session.length) {
        return false;
    }
    if !store_check::store_sound(store, links, directory) {
        return false;
    }
    if !number_ok(session.free, links) {
        return false;
    }
    if !content_check::contents_ok(store, links, directory) {
        return false;
    }
    activity_check::activity_sound(session, store, links, directory, values)
}
