// The two slots of a lasting store's file: session, values and how many pictures were written, each under an order and a sum.
//
// What changes session and values alone, as each label does, goes into the slot that does not hold the last state, so that a cut leaves that one whole
// (specs/Slots.antt). A slot's sum starts from the sum of head and body, so that it is not taken for one of another body. A file of version 1 was made before there
// was a clock: its slots have less of a session's image, and its session is given the clock and the formats of an opening.
#![tactic(auto)]

ghost use Rattle.std.specs.Prelude.{◌≡◌, ◌+◌, take};
ghost use Rattle.std.proofs.lemmas.List.Edits.{sets};
ghost use Rattle.low_first.specs.Low.{number_at};
ghost use Rattle.image.specs.Image.{image_of};
ghost use Rattle.lent.specs.Lent.{bytes_of_values};
ghost use Rattle.file_parts.specs.Sums.{part_of};
ghost use Rattle.slots.specs.Slots.{slot_of, pictures_at, image_at, is_first, held_image, values_at, sum_at, dated, session_in, filled, slotted, whole, torn_at};

use calendar::Clock;
use file_parts::{four_at, part, put_four, sum, two_at};
use formats::Formats;
use ground::{both, front, put};
use image::IMAGE;
use lent::BYTES_OF_VALUES;
use session::Session;

// The head and each slot have a page of their own, so that a cut while one is written leaves the others whole.
pub const PAGE: usize = 4096;

// Where the head has the file's version.
pub const VERSION_AT: usize = 16;

// Where the head has the sum of head and body.
pub const BODY_SUM_AT: usize = 24;

// The parts of a slot behind its order: pictures so far, session, values, and the sum of all these.
const PICTURES_AT: usize = 4;

const IMAGE_AT: usize = 8;

// Version 1 has the image up to the number of free portions, which the links in the file's body say.
const FIRST_IMAGE: usize = 65;

// The bytes of a slot; one of version 1 has fewer.
pub const SLOT: usize = IMAGE_AT + IMAGE + BYTES_OF_VALUES + 4;

// Where slot k stands.
fn page_of(k: usize) -> usize
    ensures { result ≡ slot_of k }
{
    PAGE + PAGE * (k % 2)
}

// Where the slot of an order stands.
pub fn slot_at(order: u32) -> usize
    ensures { result ≡ slot_of order }
{
    page_of(order as usize)
}

// Whether a file is of version 1.
pub fn is_first(file: &[u8]) -> bool
    ensures { result ≡ is_first file.now }
{
    two_at(file, VERSION_AT) == 1
}

// How much of a session's image a slot has.
fn held_image(file: &[u8]) -> usize
    ensures { result ≡ held_image file.now }
{
    if is_first(file) { FIRST_IMAGE } else { IMAGE }
}

fn values_at(file: &[u8]) -> usize
    ensures { result ≡ values_at file.now }
{
    IMAGE_AT + held_image(file)
}

fn sum_at(file: &[u8]) -> usize
    ensures { result ≡ sum_at file.now }
{
    values_at(file) + BYTES_OF_VALUES
}

fn put_session(file: &mut [u8], at: usize, held: usize, session: Session)
    ensures { file.new ≡ sets file.old at (take held (image_of session)) }
{
    let mut image = [0u8; IMAGE];
    image::encode(session, &mut image);
    put(file, at, front(&image, held));
}

fn fill_slot(file: &mut [u8], order: u32, pictures: u32, session: Session, values: &[u8])
    ensures { file.new ≡ filled file.old (slot_of order) order pictures session values.now }
{
    let at = slot_at(order);
    let held = held_image(file);
    put_four(file, at, order);
    put_four(file, at + PICTURES_AT, pictures);
    put_session(file, at + IMAGE_AT, held, session);
    put(file, at + (IMAGE_AT + held), front(values, BYTES_OF_VALUES));
}

// Session and values in the slot of their order.
pub fn put_slot(file: &mut [u8], order: u32, pictures: u32, session: Session, values: &[u8])
    ensures { file.new ≡ slotted file.old order pictures session values.now }
{
    fill_slot(file, order, pictures, session, values);
    let at = slot_at(order);
    let n = sum_at(file);
    let mark = four_at(file, BODY_SUM_AT);
    let s = sum(mark, part(file, at, n));
    put_four(file, at + n, s);
}

// The order of slot k, which 0 never is.
pub fn order_of(file: &[u8], k: usize) -> u32
    ensures { result ≡ number_at 4 file.now (slot_of k) }
{
    four_at(file, page_of(k))
}

// How many pictures had been written.
pub fn pictures_of(file: &[u8], k: usize) -> u32
    ensures { result ≡ number_at 4 file.now (slot_of k + pictures_at) }
{
    four_at(file, page_of(k) + PICTURES_AT)
}

// A session that was kept before there was a clock, with the clock and the formats of an opening.
fn dated(session: Session) -> Session
    ensures { result ≡ dated session }
{
    session
        .clocked(Clock::fresh())
        .formatted(Formats::examples())
}

// The session of slot k. Whoever loads it counts the free portions anew.
pub fn session_of(file: &[u8], k: usize) -> Session
    ensures { result ≡ session_in file.now (slot_of k) }
{
    let held = image::decode(part(file, page_of(k) + IMAGE_AT, held_image(file)));
    if is_first(file) { dated(held) } else { held }
}

// The values of slot k.
pub fn load_values(file: &[u8], k: usize, values: &mut [u8])
    ensures { values.new ≡ sets values.old 0 (part_of file.now (slot_of k + values_at file.now) bytes_of_values) }
{
    put(
        values,
        0,
        part(file, page_of(k) + values_at(file), BYTES_OF_VALUES),
    );
}

// Whether slot k has the sum that it says.
pub fn is_whole(file: &[u8], k: usize) -> bool
    ensures { result ≡ whole file.now (slot_of k) }
{
    let at = page_of(k);
    let n = sum_at(file);
    let said = four_at(file, at + n);
    let mark = four_at(file, BODY_SUM_AT);
    said == sum(mark, part(file, at, n))
}

// Whether slot k was begun and is not whole: a change that was cut short.
pub fn torn(file: &[u8], k: usize) -> bool
    ensures { result ≡ torn_at file.now (slot_of k) }
{
    let begun = order_of(file, k) != 0;
    both(begun, !is_whole(file, k))
}
