// The exported calls: the station for a caller that keeps plain bytes. Crate `face_c` hands them on to C.
//
// Paper 01: "Opening, command and label calls exported on numbers and byte slices"; paper 02, §7, adds the question whether something fits, §10 the seconds
// that pass, and §11 the repair of a damaged store. The session is lent as an image of 83 bytes (crate `image`), so that a caller keeps plain bytes, and any bytes are some session.
// Each call is the station's call on that session, for any slices whatever; an image of another length is [1], and nothing is touched. Each promises
// one equation with a definition of crate `exported`, over the answer's number and every lent slice at exit.
#![tactic(auto)]

ghost use Rattle.std.specs.Prelude.{◌≡◌};
ghost use Rattle.lent.specs.Lent.{world};
ghost use Rattle.memory.specs.Memory.{memory};
ghost use Rattle.exported.specs.Face.{opening, commanding, labelling, opened_face, commanded_face, labelled_face, clocking, clocked_face, fitted_face, repairing, repaired_face};

use answers::{Answer, number, place};
use clock_call::pass;
pub use exported::COUNTS;
use exported::store_counts;
use fits::fit_answer;
use ground::either;
pub use image::IMAGE;
use image::{decode, encode};
use repair::repair;

pub fn station_open(
    session: &mut [u8],
    page: &mut [u8],
    background: &mut [u8],
    store: &mut [u8],
    links: &mut [u16],
    directory: &mut [u8],
    values: &mut [u8],
) -> u8
    ensures { opening result session.new page.new (world background.new store.new links.new directory.new values.new) ≡ opened_face session.old page.old (world background.old store.old links.old directory.old values.old) }
{
    if session.len() != IMAGE {
        return number(Answer::Lengths);
    }
    let o = station::open(page, background, store, links, directory, values);
    let after = o.session;
    encode(after, session);
    let answer = o.answer;
    number(answer)
}

pub fn station_command(
    session: &mut [u8],
    counts: &mut [u64],
    font: &[u8],
    background: &mut [u8],
    store: &mut [u8],
    links: &mut [u16],
    directory: &mut [u8],
    values: &mut [u8],
    output: &mut [u8],
    input: &[u8],
) -> u8
    ensures { commanding result session.new counts.new (world background.new store.new links.new directory.new values.new) output.new ≡ commanded_face session.old counts.old font.now (world background.old store.old links.old directory.old values.old) output.old input.now }
{
    if either(session.len() != IMAGE, counts.len() != COUNTS) {
        store_counts(counts, 0, 0, 0);
        return number(Answer::Lengths);
    }
    let before = decode(session);
    let o = station::command(
        before, font, background, store, links, directory, values, output, input,
    );
    let after = o.session;
    encode(after, session);
    let answer = o.answer;
    store_counts(counts, o.read, o.written, place(answer));
    number(answer)
}

pub fn station_label(
    session: &mut [u8],
    font: &[u8],
    page: &mut [u8],
    background: &[u8],
    store: &[u8],
    links: &[u16],
    directory: &[u8],
    values: &[u8],
) -> u8
    ensures { labelling result session.new page.new ≡ labelled_face session.old font.now (world background.now store.now links.now directory.now values.now) page.old }
{
    if session.len() != IMAGE {
        return number(Answer::Lengths);
    }
    let before = decode(session);
    let o = station::label(
        before, font, page, background, store, links, directory, values,
    );
    let after = o.session;
    encode(after, session);
    let answer = o.answer;
    number(answer)
}

pub fn station_clock(session: &mut [u8], seconds: u64) -> u8
    ensures { clocking result session.new ≡ clocked_face session.old seconds }
{
    if session.len() != IMAGE {
        return number(Answer::Lengths);
    }
    let o = pass(decode(session), seconds);
    let after = o.session;
    encode(after, session);
    let answer = o.answer;
    number(answer)
}

// It is lent nothing that it could change, and neither store nor values.
pub fn station_fits(
    session: &[u8],
    links: &[u16],
    directory: &[u8],
    kind: u8,
    name: &[u8],
    size: u64,
) -> u8
    ensures { result ≡ fitted_face session.now links.now directory.now kind name.now size }
{
    if session.len() != IMAGE {
        return number(Answer::Lengths);
    }
    let held = decode(session);
    let owed = held.owed;
    number(fit_answer(owed, links, directory, kind, name, size))
}

pub fn station_repair(
    session: &mut [u8],
    counts: &mut [u64],
    rows: u64,
    store: &mut [u8],
    links: &mut [u16],
    directory: &mut [u8],
    values: &mut [u8],
    output: &mut [u8],
) -> u8
    ensures { repairing result session.new counts.new (memory store.new links.new directory.new) values.new output.new ≡ repaired_face session.old counts.old rows (memory store.old links.old directory.old) values.old output.old }
{
    if either(session.len() != IMAGE, counts.len() != COUNTS) {
        store_counts(counts, 0, 0, 0);
        return number(Answer::Lengths);
    }
    let before = decode(session);
    let o = repair(before, rows, store, links, directory, values, output);
    let after = o.session;
    encode(after, session);
    store_counts(counts, 0, o.written, 0);
    let answer = o.answer;
    number(answer)
}
