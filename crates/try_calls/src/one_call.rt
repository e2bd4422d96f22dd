// One call, with the lengths and the input that its record gives.
use file_parts::{four_at, part, two_at};
use ground::{back, byte, front, least};
use try_desk::Desk;

// As much of a slice as the record says at a place, and never more than there is.
fn lent<'a>(record: &[u8], at: usize, bytes: &'a mut [u8]) -> &'a mut [u8] {
    let n = least(two_at(record, at) as usize, bytes.len());
    &mut bytes[..n]
}

fn lent_links<'a>(record: &[u8], links: &'a mut [u16]) -> &'a mut [u16] {
    let n = least(two_at(record, 11) as usize, links.len());
    &mut links[..n]
}

fn lent_counts<'a>(record: &[u8], counts: &'a mut [u64]) -> &'a mut [u64] {
    let n = least(two_at(record, 3) as usize, counts.len());
    &mut counts[..n]
}

// The same of a slice that a call only reads.
fn shown<'a>(record: &[u8], at: usize, bytes: &'a [u8]) -> &'a [u8] {
    front(bytes, two_at(record, at) as usize)
}

fn shown_links<'a>(record: &[u8], links: &'a [u16]) -> &'a [u16] {
    let n = least(two_at(record, 11) as usize, links.len());
    &links[..n]
}

fn open(record: &[u8], d: Desk) -> Desk {
    let mut session = d.session;
    let mut page = d.page;
    let mut background = d.background;
    let mut store = d.store;
    let mut links = d.links;
    let mut directory = d.directory;
    let mut values = d.values;
    let answer = face::station_open(
        lent(record, 1, &mut session),
        lent(record, 5, &mut page),
        lent(record, 7, &mut background),
        lent(record, 9, &mut store),
        lent_links(record, &mut links),
        lent(record, 13, &mut directory),
        lent(record, 15, &mut values),
    );
    let mut after = d;
    after.answer = answer;
    after.session = session;
    after.page = page;
    after.background = background;
    after.store = store;
    after.links = links;
    after.directory = directory;
    after.values = values;
    after
}

fn command(record: &[u8], font: &[u8], d: Desk) -> Desk {
    let mut session = d.session;
    let mut counts = d.counts;
    let mut background = d.background;
    let mut store = d.store;
    let mut links = d.links;
    let mut directory = d.directory;
    let mut values = d.values;
    let mut output = d.output;
    let answer = face::station_command(
        lent(record, 1, &mut session),
        lent_counts(record, &mut counts),
        font,
        lent(record, 7, &mut background),
        lent(record, 9, &mut store),
        lent_links(record, &mut links),
        lent(record, 13, &mut directory),
        lent(record, 15, &mut values),
        lent(record, 17, &mut output),
        part(record, 21, two_at(record, 19) as usize),
    );
    let mut after = d;
    after.answer = answer;
    after.session = session;
    after.counts = counts;
    after.background = background;
    after.store = store;
    after.links = links;
    after.directory = directory;
    after.values = values;
    after.output = output;
    after
}

fn label(record: &[u8], font: &[u8], d: Desk) -> Desk {
    let mut session = d.session;
    let mut page = d.page;
    let background = d.background;
    let store = d.store;
    let links = d.links;
    let directory = d.directory;
    let values = d.values;
    let answer = face::station_label(
        lent(record, 1, &mut session),
        font,
        lent(record, 5, &mut page),
        shown(record, 7, &background),
        shown(record, 9, &store),
        shown_links(record, &links),
        shown(record, 13, &directory),
        shown(record, 15, &values),
    );
    let mut after = d;
    after.answer = answer;
    after.session = session;
    after.page = page;
    after
}

// A number of 8 bytes, low byte first.
fn eight_at(record: &[u8], at: usize) -> u64 {
    let low = four_at(record, at) as u64;
    let high = four_at(back(record, at), 4) as u64;
    low + 4294967296 * high
}

fn fits(record: &[u8], d: Desk) -> Desk {
    let session = d.session;
    let links = d.links;
    let directory = d.directory;
    let answer = face::station_fits(
        shown(record, 1, &session),
        shown_links(record, &links),
        shown(record, 13, &directory),
        byte(record, 19),
        part(record, 30, two_at(record, 28) as usize),
        eight_at(record, 20),
    );
    let mut after = d;
    after.answer = answer;
    after
}

fn clock(record: &[u8], d: Desk) -> Desk {
    let mut session = d.session;
    let answer = face::station_clock(lent(record, 1, &mut session), eight_at(record, 19));
    let mut after = d;
    after.answer = answer;
    after.session = session;
    after
}

fn repair(record: &[u8], d: Desk) -> Desk {
    let mut session = d.session;
    let mut counts = d.counts;
    let mut store = d.store;
    let mut links = d.links;
    let mut directory = d.directory;
    let mut values = d.values;
    let mut output = d.output;
    let answer = face::station_repair(
        lent(record, 1, &mut session),
        lent_counts(record, &mut counts),
        eight_at(record, 19),
        lent(record, 9, &mut store),
        lent_links(record, &mut links),
        lent(record, 13, &mut directory),
        lent(record, 15, &mut values),
        lent(record, 17, &mut output),
    );
    let mut after = d;
    after.answer = answer;
    after.session = session;
    after.counts = counts;
    after.store = store;
    after.links = links;
    after.directory = directory;
    after.values = values;
    after.output = output;
    after
}

pub(crate) fn call(record: &[u8], font: &[u8], d: Desk) -> Desk {
    match byte(record, 0) {
        b'O' => open(record, d),
        b'C' => command(record, font, d),
        b'W' => fits(record, d),
        b'T' => clock(record, d),
        b'R' => repair(record, d),
        _ => label(record, font, d),
    }
}
