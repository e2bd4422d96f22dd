// Will it fit? Paper 02, §7, asked from the command line and answered in words.
//
//     press -store shop.store -fits picture LOGO 4000
//
// The answer is that of crate `fits`, the words are those of crate `words`. The store is found, judged and loaded as a run finds it, and then only looked at: no
// command and no font is read, no file is made, and none is changed. Without a store, or where its file is not there, a new and empty one is asked.
#![tactic(auto)]

use answers::{Answer, is_full, is_taken};
use fits::{FORM, PICTURE};
use ground::front;
use lasting::DIRECTORY_BYTES;
use lent::BYTES_OF_VALUES;
use press_settings::saying::{complain, say};
use press_settings::{Machine, Name, Question, Settings, Told};
use press_store::rooms;
use press_store::rooms::Lent;
use store::MOST_PORTIONS;

// The answer in words: what fits among what is done, what does not among what is refused.
fn tell(rt: &impl Machine, s: Settings, q: Question, name: &[u8], answer: Answer) {
    let mut text = [0u8; 4352];
    let size = q.size.unwrap_or(0);
    let n = words::fits(q.size.is_some(), name, size, answer, &mut text);
    if is_taken(answer) {
        say(rt, s, front(&text, n));
    } else {
        complain(rt, front(&text, n));
    }
}

// How much is left of portions and entries, where one of them ran out.
fn left(rt: &impl Machine, q: Question, name: &[u8], answer: Answer, lent: &Lent) {
    if is_full(answer) {
        let mut text = [0u8; 4352];
        let size = q.size.unwrap_or(0);
        let n = words::fits_left(
            q.size.is_some(),
            name,
            size,
            lent.links,
            lent.directory,
            &mut text,
        );
        complain(rt, front(&text, n));
    }
}

// The answer for so many labels owed, and what is lent.
fn answer(rt: &impl Machine, s: Settings, q: Question, owed: u16, lent: &Lent) {
    let name = Name::argument(rt, q.name);
    let (kind, size) = match q.size {
        Some(size) => (PICTURE, size),
        None => (FORM, 0),
    };
    let a = fits::fit_answer(
        owed,
        lent.links,
        lent.directory,
        kind,
        name.bytes(),
        size as u64,
    );
    tell(rt, s, q, name.bytes(), a);
    left(rt, q, name.bytes(), a, lent);
}

// A store looked at, with pages of n bytes.
fn look(rt: &impl Machine, s: Settings, q: Question, n: usize, file: &[u8]) -> Result<(), Told> {
    let mut background = rooms::rows();
    let mut store = rooms::portions();
    let mut links = [0u16; MOST_PORTIONS];
    let mut directory = [0u8; DIRECTORY_BYTES];
    let mut values = [0u8; BYTES_OF_VALUES];
    let start = press_store::load(
        rt,
        s,
        rooms::cut(&mut background, n),
        &mut store,
        &mut links,
        &mut directory,
        &mut values,
        file,
    )?;
    let lent = Lent {
        background: front(&background, n),
        store: &store,
        links: &links,
        directory: &directory,
        values: &values,
    };
    let session = start.session;
    answer(rt, s, q, session.owed, &lent);
    Ok(())
}

// The question of the command line, answered; where the store is refused, there is no answer.
pub fn ask(rt: &impl Machine, s: Settings, q: Question) -> Result<(), Told> {
    let mut file = rooms::file();
    let sizes = press_store::find(rt, s, &mut file)?;
    look(rt, s, q, sizes.page, front(&file, sizes.known))
}
