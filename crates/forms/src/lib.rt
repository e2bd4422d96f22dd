// What a stored form says: whether it is good, what it declares, and whether its pictures are stored.
//
// Sound asks that a form be "a row of normalised lines that recording would take one after another (presence of pictures aside)"; a value is entered under
// what the active form declares, and labels are owed only when "the pictures exist". Each function walks the lines of one entry where they lie in the
// store, from the first to the last, and answers what the definition (specs/Form.antt) says of the form's bytes, on any memory. That a form which takes one
// line more stays good is proved in proofs/Growing.antt. What a line holds is read in crate `form_lines`, and an item is judged in crate `recording`.
#![tactic(auto)]

ghost use Rattle.std.specs.Prelude.{◌≡◌, ◌<◌, length, MatchOption, true, false};
ghost use Rattle.contents.specs.Content.{content};
ghost use Rattle.kept_line.specs.Held.{item_in};
ghost use Rattle.forms.specs.Form.{takes, declaring, has_stored, form_ok, declared_of, pictures_stored};
ghost use Rattle.forms.specs.Walk.{started, walk_ok, walk_declared, walk_has};

use contents::Cursor;
use declarations::Declared;
use form_lines::next_line;
use ground::front;
use kept_line::stored_item;
use recording::{declare, has_picture, judge};

// Where a walk stands, and what is declared so far.
#[derive(Clone, Copy)]
pub struct Walk {
    pub place: Cursor,
    pub declared: Declared,
}

fn start(links: &[u16], directory: &[u8], i: usize) -> Walk
    ensures { result ≡ started links.now directory.now i }
{
    Walk {
        place: contents::reader(links, directory, i),
        declared: Declared::none(),
    }
}

// What is declared after a line that recording would take.
fn see_line(line: &[u8], d: Declared) -> Option<Declared>
    ensures { MatchOption result (takes d line.now ≡ false) (λ after. (after ≡ declaring d line.now) × (takes d line.now ≡ true)) }
{
    match stored_item(line) {
        Some(item) => match judge(line, item, d) {
            Ok(()) => Some(declare(d, item)),
            Err(_) => None,
        },
        None => None,
    }
}

// A walk behind the next line, if recording would take that line.
#[tactic(auto, using(crate::proofs::Walking::judge_steps))]
fn judge_next(store: &[u8], links: &[u16], w: Walk, buffer: &mut [u8]) -> Option<Walk>
    requires { (0 < w.place.left) × (length buffer.old ≡ 256) }
    ensures { MatchOption result (walk_ok store.now links.now w ≡ false) (λ v. (walk_ok store.now links.now v ≡ walk_ok store.now links.now w) × (v.place.left < w.place.left)) }
{
    let d = w.declared;
    let next = next_line(store, links, w.place, buffer);
    let place = next.place;
    let declared = see_line(front(buffer, next.n), d)?;
    Some(Walk { place, declared })
}

fn judge_all(store: &[u8], links: &[u16], directory: &[u8], i: usize, buffer: &mut [u8]) -> bool
    requires { length buffer.old ≡ 256 }
    ensures { result ≡ form_ok (content store.now links.now directory.now i) }
{
    let mut w = start(links, directory, i);
    // A while, here and below: the reader goes along a chain of links, and there is no list to go over.
    while 0 < w.place.left {
        let Some(next) = judge_next(store, links, w, buffer) else {
            return false;
        };
        w = next;
    }
    true
}

// Whether the form of entry i is a row of normalised lines that recording would take one after another, presence of pictures aside. One buffer serves
// all its lines.
pub fn form_ok(store: &[u8], links: &[u16], directory: &[u8], i: usize) -> bool
    ensures { result ≡ form_ok (content store.now links.now directory.now i) }
{
    let mut buffer = [0u8; 256];
    judge_all(store, links, directory, i, &mut buffer)
}

// Only a line that begins with V, C or T can declare or say a format, so that no other is read.
fn declare_line(line: &[u8], d: Declared) -> Declared
    ensures { result ≡ declaring d line.now }
{
    let first = ground::byte(line, 0);
    if first != b'V' && first != b'C' && first != b'T' {
        return d;
    }
    match stored_item(line) {
        Some(item) => declare(d, item),
        None => d,
    }
}

fn declare_next(store: &[u8], links: &[u16], w: Walk) -> Walk
    requires { 0 < w.place.left }
    ensures { (walk_declared store.now links.now result ≡ walk_declared store.now links.now w) × (result.place.left < w.place.left) }
{
    let mut buffer = [0u8; 256];
    let d = w.declared;
    let place = w.place;
    let next = next_line(store, links, place, &mut buffer);
    let declared = declare_line(front(&buffer, next.n), d);
    let after = next.place;
    Walk {
        place: after,
        declared,
    }
}

// What the form of entry i declares.
pub fn declared_at(store: &[u8], links: &[u16], directory: &[u8], i: usize) -> Declared
    ensures { result ≡ declared_of (content store.now links.now directory.now i) }
{
    let mut w = start(links, directory, i);
    while 0 < w.place.left {
        w = declare_next(store, links, w);
    }
    w.declared
}

// Only a line that begins with G can draw a picture, so that no other is read.
fn has_line(directory: &[u8], line: &[u8]) -> bool
    ensures { result ≡ has_stored directory.now line.now (item_in line.now) }
{
    if ground::byte(line, 0) != b'G' {
        return true;
    }
    match stored_item(line) {
        Some(item) => has_picture(directory, line, item),
        None => true,
    }
}

// A reader behind the next line, if the picture that it draws is stored.
fn look_next(store: &[u8], links: &[u16], directory: &[u8], place: Cursor) -> Option<Cursor>
    requires { 0 < place.left }
    ensures { MatchOption result (walk_has store.now links.now directory.now place ≡ false) (λ v. (walk_has store.now links.now directory.now v ≡ walk_has store.now links.now directory.now place) × (v.left < place.left)) }
{
    let mut buffer = [0u8; 256];
    let next = next_line(store, links, place, &mut buffer);
    if !has_line(directory, front(&buffer, next.n)) {
        return None;
    }
    Some(next.place)
}

// Whether all pictures are stored that the form of entry i draws.
pub fn pictures_stored(store: &[u8], links: &[u16], directory: &[u8], i: usize) -> bool
    ensures { result ≡ pictures_stored directory.now (content store.now links.now directory.now i) }
{
    let mut place = contents::reader(links, directory, i);
    while 0 < place.left {
        let Some(next) = look_next(store, links, directory, place) else {
            return false;
        };
        place = next;
    }
    true
}
