// A store that came back from a bad card: paper 02, §11, as a tool for people.
//
//     press -repair -store shop.store
//
// What is kept and what is dropped is said by crates `verdicts` and `repair`, in the words of crate `repair_words`. A store that loads is left alone. Any other is
// read as far as it goes, and what is repaired of it becomes a new file, whole and on disk before anything is said; the old file is opened for reading only, and a
// file that has the new one's name is left as it is.
#![tactic(auto)]

ghost use Rattle.std.specs.Prelude.{◌≡◌, length};

use answers::is_taken;
use dots::BYTES_A_ROW;
use ground::{front, least};
use lasting::{DIRECTORY_BYTES, Fault, MOST_ROWS};
use lent::BYTES_OF_VALUES;
use press_settings::saying::{complain, failed, say, wrong};
use press_settings::system::create_new;
use press_settings::{Machine, Name, Settings, Told};
use press_store::rooms;
use session::Session;
use std::io;
use std::io::ErrorKind;
use store::{MOST_ENTRIES, MOST_PORTIONS};
use verdicts::{KEPT, UNSAID};

// The longest list of a repair: a line for each entry, none longer than `511 content` and its LF.
const LIST: usize = 12 * MOST_ENTRIES;

// Room for the last line, which has two names in it: 65,536 zeros, of which only the number is promised.
fn line_room() -> [u8; 65536]
    ensures { 65536 ≡ length result }
{
    [0; 65536]
}

// How many entries are kept and dropped.
#[derive(Clone, Copy)]
struct Sums {
    keeps: usize,
    drops: usize,
}

// Whether a file is a store that a run would take.
fn loads(file: &[u8]) -> bool {
    let mut background = rooms::rows();
    let mut store = rooms::portions();
    let mut links = [0u16; MOST_PORTIONS];
    let mut directory = [0u8; DIRECTORY_BYTES];
    let mut values = [0u8; BYTES_OF_VALUES];
    let n = BYTES_A_ROW * least(lasting::rows(file), MOST_ROWS);
    press_store::loaded(
        rooms::cut(&mut background, n),
        &mut store,
        &mut links,
        &mut directory,
        &mut values,
        file,
    )
    .is_some()
}

// How many rows the repaired store has: those that are asked for, else those of the head; none where the head is no store's, so that a file that was named by
// mistake is not taken for a store.
fn rows(rt: &impl Machine, s: Settings, path: &[u8], file: &[u8]) -> Result<usize, Told> {
    if let Some(rows) = s.rows {
        return Ok(rows);
    }
    match lasting::judge(file) {
        Err(Fault::Foreign | Fault::Version | Fault::Sizes) => Err(wrong(
            rt,
            path,
            b" does not begin as a store of this station does; if it is one, say with -rows N how many rows its labels may have\n",
        )),
        _ => Ok(lasting::rows(file)),
    }
}

// The line of entry i: among what is done where it is kept, among what is refused where it is dropped.
fn tell_entry(rt: &impl Machine, s: Settings, directory: &[u8], i: usize, v: u8) {
    let kind = store::kind_at(directory, i);
    let name = store::name_at(directory, i);
    let n = store::name_length_at(directory, i);
    let mut text = [0u8; 256];
    let k = repair_words::entry(i, v, kind, front(&name, n), &mut text);
    if v == KEPT {
        say(rt, s, front(&text, k));
    } else {
        complain(rt, front(&text, k));
    }
}

fn counted(sums: Sums, v: u8) -> Sums {
    let mut next = sums;
    if v == KEPT {
        next.keeps = ground::capped_sum(sums.keeps, 1);
    } else {
        next.drops = ground::capped_sum(sums.drops, 1);
    }
    next
}

// One line for each entry that is not empty, in directory order; how many are kept and dropped.
fn tell_entries(rt: &impl Machine, s: Settings, directory: &[u8], verdicts: &[u8]) -> Sums {
    let mut sums = Sums { keeps: 0, drops: 0 };
    for i in 0..MOST_ENTRIES {
        let v = ground::byte(verdicts, i);
        if v != UNSAID {
            tell_entry(rt, s, directory, i, v);
            sums = counted(sums, v);
        }
    }
    sums
}

// Store, links and directory out of a file, and no background.
fn take_body(file: &[u8], store: &mut [u8], links: &mut [u16], directory: &mut [u8]) {
    let mut background = [0u8; 1];
    lasting::load_body(
        file,
        rooms::cut(&mut background, 0),
        store,
        links,
        directory,
    );
}

// What became of the entries of a file, and how many portions are free after the repair. They are judged once more, from the bytes that were repaired.
fn tell(rt: &impl Machine, s: Settings, file: &[u8], free: u16) {
    let mut store = rooms::portions();
    let mut links = [0u16; MOST_PORTIONS];
    let mut directory = [0u8; DIRECTORY_BYTES];
    take_body(file, &mut store, &mut links, &mut directory);
    let mut verdicts = [0u8; MOST_ENTRIES];
    let mut fills = [0u16; MOST_PORTIONS];
    verdicts::judge(&store, &links, &directory, &mut verdicts, &mut fills);
    let sums = tell_entries(rt, s, &directory, &verdicts);
    let mut text = [0u8; 128];
    let n = repair_words::sum(sums.keeps, sums.drops, free as usize, &mut text);
    say(rt, s, front(&text, n));
}

fn pictures_in(file: &[u8], k: usize) -> u32 {
    if slots::is_whole(file, k) {
        slots::pictures_of(file, k)
    } else {
        0
    }
}

// How many pictures had been written, as far as the slots tell, so that those of later labels do not take their names.
fn pictures(file: &[u8]) -> u32 {
    let first = pictures_in(file, 0);
    let second = pictures_in(file, 1);
    if first < second { second } else { first }
}

// A new file of these bytes, on disk.
fn make(rt: &impl Machine, name: &[u8], bytes: &[u8]) -> Result<(), Told> {
    match create_new(rt, name) {
        Ok(file) => {
            press_store::written(rt, file, name, bytes)?;
            press_store::sync_folder(rt, name);
            Ok(())
        }
        Err(why) => Err(tell_unmade(rt, name, why)),
    }
}

// Why a new file is not made.
fn tell_unmade(rt: &impl Machine, name: &[u8], why: io::Error) -> Told {
    if why.kind() == ErrorKind::AlreadyExists {
        return wrong(
            rt,
            name,
            b" is there already, and is left as it is: nothing is repaired\n",
        );
    }
    failed(rt, b"cannot make ", name, why)
}

// The repaired store in its file, and what is said then.
fn finish(
    rt: &impl Machine,
    s: Settings,
    path: &[u8],
    rows: usize,
    file: &[u8],
    free: u16,
    bytes: &[u8],
) -> Result<(), Told> {
    let name = Name::joined(path, b".repaired");
    make(rt, name.bytes(), bytes)?;
    tell(rt, s, file, free);
    let mut text = line_room();
    let n = repair_words::made(name.bytes(), rows, path, &mut text);
    say(rt, s, front(&text, n));
    Ok(())
}

// What was repaired as a whole new store: with a white background, and with the session in the first slot. Four slices and no Lent, since nothing has a
// background to lend here.
fn save(
    rt: &impl Machine,
    s: Settings,
    path: &[u8],
    rows: usize,
    file: &[u8],
    session: Session,
    store: &[u8],
    links: &[u16],
    directory: &[u8],
    values: &[u8],
) -> Result<(), Told> {
    let mut white = rooms::rows();
    let background = rooms::cut(&mut white, BYTES_A_ROW * least(rows, MOST_ROWS));
    let mut next = rooms::file();
    let n = lasting::place(&mut next, background, store, links, directory);
    lasting::seal(&mut next);
    slots::put_slot(&mut next, 1, pictures(file), session, values);
    finish(rt, s, path, rows, file, session.free, front(&next, n))
}

// What the bytes of a file hold, repaired for labels of so many rows. Lengths and rows are right and the list has room, so that the repair is taken.
fn mend(rt: &impl Machine, s: Settings, path: &[u8], rows: usize, file: &[u8]) -> Result<(), Told> {
    let mut store = rooms::portions();
    let mut links = [0u16; MOST_PORTIONS];
    let mut directory = [0u8; DIRECTORY_BYTES];
    let mut values = [0u8; BYTES_OF_VALUES];
    take_body(file, &mut store, &mut links, &mut directory);
    let mut list = [0u8; LIST];
    let done = repair::repair(
        Session::none(),
        rows as u64,
        &mut store,
        &mut links,
        &mut directory,
        &mut values,
        &mut list,
    );
    let session = done.session;
    if !is_taken(done.answer) {
        return Ok(());
    }
    save(
        rt, s, path, rows, file, session, &store, &links, &directory, &values,
    )
}

// The store of the command line: left alone where it loads, else repaired.
pub fn repair(rt: &impl Machine, s: Settings) -> Result<(), Told> {
    let name = press_store::name(rt, s);
    let path = name.bytes();
    let mut room = rooms::file();
    let known = press_store::found(rt, s, path, &mut room);
    let file = front(&room, known);
    if file.is_empty() {
        press_store::missing(rt, path)?;
        return Err(wrong(rt, path, b" is not there: nothing is repaired\n"));
    }
    if loads(file) {
        say(rt, s, path);
        say(rt, s, b" loads as it is; nothing is repaired\n");
        return Ok(());
    }
    let rows = rows(rt, s, path, file)?;
    mend(rt, s, path, rows, file)
}
