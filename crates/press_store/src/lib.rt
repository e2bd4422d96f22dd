// A run and its store that lasts: found, judged and loaded at the start, saved after each change.
//
// What the store's file is, byte by byte, is said in crates `lasting` and `slots`. Here it is opened, read, written and named. Who only looks at a store finds and
// loads it, and nothing is written; a run begins from there. A whole new file is on disk before it takes the name of the old one; session and values alone go
// into the slot that does not hold the last ones.
#![tactic(auto)]

ghost use Rattle.std.specs.Prelude.{◌≡◌, ◌≤◌, [], IfNone, length};
ghost use Rattle.press_settings.specs.Names.{room};

pub mod rooms; // room for what is lent

use dots::BYTES_A_ROW;
use ground::{back, front, least, put};
use lasting::{Fault, MOST_ROWS};
use press_settings::saying::{failed, wrong};
use press_settings::system::{create, open_read, open_update, read_full, remove, rename};
use press_settings::{Machine, Name, Settings, Told};
use rooms::Lent;
use session::{Session, sixteen_bits};
use std::fs::{File, OpenFile};
use std::io;
use std::io::{ErrorKind, Read, Write};
use std::os::unix::fs::FileExt;
use std::rt::Files;

// Where commands are read: standard input, or a file of the command line.
#[derive(Drop)]
pub enum Source {
    Input,
    Named(File),
}

// What is known between two turns. from is what is read, nothing before the first turn, and file the argument that names it, none for standard input. start and end
// are where the bytes that are not read yet stand in the window. kept is the store's file, open for change. moment is the machine's second up to which the clock
// was moved.
#[derive(Drop)]
pub struct Run {
    pub session: Session,
    pub from: Option<Source>,
    pub file: Option<usize>,
    pub start: usize,
    pub end: usize,
    pub ended: bool,
    pub skipping: bool,
    pub line: usize,
    pub taken: usize,
    pub refused: usize,
    pub labels: usize,
    pub pictures: u32,
    pub order: u32,
    pub kept: Option<File>,
    pub moment: usize,
}

// What is found of a store: the bytes of its file, 0 where there is none, and the bytes of a page.
#[derive(Clone, Copy)]
pub struct Sizes {
    pub known: usize,
    pub page: usize,
}

// A store as it is loaded: its session, and the slot that this comes from; a new one comes from none.
#[derive(Clone, Copy)]
pub struct Start {
    pub session: Session,
    pub slot: Option<usize>,
}

// The greatest number of a picture or of a change.
pub const LAST: u32 = u32::MAX;

// The number after another; the greatest stays.
pub fn next_number(n: u32) -> u32 {
    n.saturating_add(1)
}

// The name of the store; empty where there is none.
pub fn name(rt: &impl Machine, s: Settings) -> Name
    ensures none { IfNone s.store (result ≡ []) }
    ensures bound { length result ≤ room }
{
    match s.store {
        Some(i) => Name::argument(rt, i),
        None => Name::joined(b"", b""),
    }
}

// The bytes of the store file, at the front of a buffer; how many they are. 0 where there is no store or no such file.
pub fn found(rt: &impl Files, s: Settings, path: &[u8], file: &mut [u8]) -> usize {
    if s.store.is_none() {
        return 0;
    }
    match open_read(rt, path) {
        Ok(stored) => all_of(stored, file),
        Err(_) => 0,
    }
}

// The bytes of a file that is open, as far as they can be read; how many they are.
fn all_of(mut stored: impl Read + Drop, file: &mut [u8]) -> usize {
    read_full(&mut stored, file)
}

fn present(rt: &impl Files, path: &[u8]) -> bool {
    match open_read(rt, path) {
        Ok(_) => true,
        Err(why) => why.kind() != ErrorKind::NotFound,
    }
}

// A file in which no bytes were found is not there. One that is there is refused, so that it is not taken for a new one.
pub fn missing(rt: &impl Machine, path: &[u8]) -> Result<(), Told> {
    if present(rt, path) {
        return Err(wrong(
            rt,
            path,
            b" cannot be read, or is empty: not a store; it is left as it is\n",
        ));
    }
    Ok(())
}

// What is said of a file that is no store; it is left as it is.
fn said_of(fault: Fault) -> &'static [u8] {
    match fault {
        Fault::Foreign => b" is not a store of this station; it is left as it is\n",
        Fault::Version => b" is a store of another version; it is left as it is\n",
        Fault::Sizes => b" is a store of other sizes; it is left as it is\n",
        Fault::Length => b" is cut short or too long for a store; it is left as it is\n",
        Fault::Damaged => b" is damaged: its sum is wrong; it is left as it is\n",
        Fault::Slots => b" is damaged: no session in it is whole; it is left as it is\n",
    }
}

// How many rows a run has with the file of a store.
fn rows_of(rt: &impl Machine, s: Settings, path: &[u8], file: &[u8]) -> Result<usize, Told> {
    if let Err(fault) = lasting::judge(file) {
        return Err(wrong(rt, path, said_of(fault)));
    }
    let rows = lasting::rows(file);
    if s.rows.unwrap_or(rows) != rows {
        return Err(wrong(
            rt,
            path,
            b" is a store of another number of rows than -rows says; it is left as it is\n",
        ));
    }
    Ok(rows)
}

// How many rows the run has. It cannot be where the file is not a store, and this is left as it is.
fn rows(rt: &impl Machine, s: Settings, path: &[u8], file: &[u8]) -> Result<usize, Told> {
    if !file.is_empty() {
        return rows_of(rt, s, path, file);
    }
    if s.store.is_some() {
        missing(rt, path)?;
    }
    Ok(s.rows.unwrap_or(800))
}

// The store that the command line names, or a new one: its file in a buffer, and the sizes that follow from it.
pub fn find(rt: &impl Machine, s: Settings, file: &mut [u8]) -> Result<Sizes, Told> {
    let path = name(rt, s);
    let known = found(rt, s, path.bytes(), file);
    let n = rows(rt, s, path.bytes(), front(file, known))?;
    Ok(Sizes {
        known,
        page: BYTES_A_ROW * least(n, MOST_ROWS),
    })
}

// A run that has not begun.
fn idle(s: Settings, session: Session) -> Run {
    Run {
        session,
        from: None,
        file: s.files,
        start: 0,
        end: 0,
        ended: true,
        skipping: false,
        line: 0,
        taken: 0,
        refused: 0,
        labels: 0,
        pictures: 0,
        order: 0,
        kept: None,
        moment: 0,
    }
}

// The folder of a file, so that a new name in it lasts.
pub fn sync_folder(rt: &impl Files, path: &[u8]) {
    let n = file_names::folder_length(path);
    let folder = if n == 0 { b"." } else { front(path, n) };
    if let Ok(open) = open_read(rt, folder) {
        let _ = open.sync_all();
    }
}

fn give_up(rt: &impl Machine, file: File, name: &[u8], why: io::Error) -> Told {
    let told = failed(rt, b"cannot write ", name, why);
    drop(file);
    let _ = remove(rt, name);
    told
}

fn synced(file: &mut File, bytes: &[u8]) -> io::Result<()> {
    file.write_all(bytes)?;
    file.sync_all()
}

// A file that is open, with these bytes on disk; where they cannot be, that is told and the file is removed.
pub fn written(rt: &impl Machine, mut file: File, name: &[u8], bytes: &[u8]) -> Result<File, Told> {
    match synced(&mut file, bytes) {
        Ok(()) => Ok(file),
        Err(why) => Err(give_up(rt, file, name, why)),
    }
}

// A whole new file, on disk before it takes the name of the old one.
fn save_whole(rt: &impl Machine, path: &[u8], bytes: &[u8]) -> Result<File, Told> {
    let name = Name::joined(path, b".new");
    match create(rt, name.bytes()) {
        Ok(file) => {
            let whole = written(rt, file, name.bytes(), bytes)?;
            renamed(rt, whole, name.bytes(), path)
        }
        Err(why) => Err(failed(rt, b"cannot make ", name.bytes(), why)),
    }
}

// A file that is on disk, under the name that it is to have.
fn renamed(rt: &impl Machine, file: File, name: &[u8], path: &[u8]) -> Result<File, Told> {
    match rename(rt, name, path) {
        Ok(()) => {
            sync_folder(rt, path);
            Ok(file)
        }
        Err(why) => Err(give_up(rt, file, path, why)),
    }
}

// The system's number for a file that is not open.
const NOT_OPEN: i32 = 9;

// Session and values alone: the slot that does not hold the last ones.
pub fn save_slot(run: &Run, values: &[u8], file: &mut [u8]) -> io::Result<()> {
    let order = next_number(run.order);
    slots::put_slot(file, order, run.pictures, run.session, values);
    let at = slots::slot_at(order);
    match run.kept.as_ref() {
        Some(kept) => write_slot(kept, front(back(file, at), slots::SLOT), at),
        None => Err(io::Error::from_raw_os_error(NOT_OPEN)),
    }
}

// A slot in its place, on disk: with one write, so that none is half new.
fn write_slot(kept: &File, slot: &[u8], at: usize) -> io::Result<()> {
    let n = kept.write_at(slot, at as u64)?;
    if n != slots::SLOT {
        return Err(io::Error::from(ErrorKind::WriteZero));
    }
    kept.sync_data()
}

// All of it: head, body and the first slot, in a file that has head and body.
fn save_all(
    rt: &impl Machine,
    s: Settings,
    run: &mut Run,
    values: &[u8],
    file: &mut [u8],
    next: &mut [u8],
) -> Result<(), Told> {
    let path = name(rt, s);
    lasting::seal(next);
    slots::put_slot(next, 1, run.pictures, run.session, values);
    run.kept = Some(save_whole(rt, path.bytes(), next)?);
    put(file, 0, next);
    run.order = 1;
    Ok(())
}

// Session and values, where nothing else has changed.
fn save_state(
    rt: &impl Machine,
    s: Settings,
    run: &mut Run,
    values: &[u8],
    file: &mut [u8],
) -> Result<(), Told> {
    if let Err(why) = save_slot(run, values, file) {
        return Err(failed(rt, b"cannot save to ", name(rt, s).bytes(), why));
    }
    run.order = next_number(run.order);
    Ok(())
}

// What has changed, saved where there is a store: all of it into a new file, session and values alone into the file that is kept open. A file of version 1 has no room
// for the formats, so that a command makes a whole new one of it; a label changes none.
pub fn save(
    rt: &impl Machine,
    s: Settings,
    run: &mut Run,
    lent: &Lent,
    file: &mut [u8],
) -> Result<(), Told> {
    if s.store.is_none() {
        return Ok(());
    }
    let mut next = rooms::file();
    let n = lasting::place(
        &mut next,
        lent.background,
        lent.store,
        lent.links,
        lent.directory,
    );
    let next = rooms::cut(&mut next, n);
    let body = lasting::BODY_AT;
    let same = writing::same(back(next, body), back(front(file, n), body));
    if same && !slots::is_first(file) && run.kept.is_some() && run.order < LAST {
        return save_state(rt, s, run, lent.values, file);
    }
    save_all(rt, s, run, lent.values, file, next)
}

// The store as it stands, in what is lent: a new one where its file has no bytes, else loaded from the slot that holds; none where it is not sound.
pub fn loaded(
    background: &mut [u8],
    store: &mut [u8],
    links: &mut [u16],
    directory: &mut [u8],
    values: &mut [u8],
    file: &[u8],
) -> Option<Start> {
    let mut page = rooms::rows();
    let n = background.len();
    let o = opening::open(
        rooms::cut(&mut page, n),
        background,
        store,
        links,
        directory,
        values,
    );
    if file.is_empty() {
        return Some(Start {
            session: o.session,
            slot: None,
        });
    }
    let k = lasting::judge(file).ok()?;
    lasting::load_body(file, background, store, links, directory);
    slots::load_values(file, k, values);
    let held = slots::session_of(file, k);
    let session = held.roomed(sixteen_bits(store::free_count(links)));
    if !sound::is_sound(session, background, store, links, directory, values) {
        return None;
    }
    Some(Start {
        session,
        slot: Some(k),
    })
}

// The same of a file that was found good; one that is not sound is refused. Nothing is written.
pub fn load(
    rt: &impl Machine,
    s: Settings,
    background: &mut [u8],
    store: &mut [u8],
    links: &mut [u16],
    directory: &mut [u8],
    values: &mut [u8],
    file: &[u8],
) -> Result<Start, Told> {
    match loaded(background, store, links, directory, values, file) {
        Some(start) => Ok(start),
        None => Err(wrong(
            rt,
            name(rt, s).bytes(),
            b" is not sound; it is left as it is\n",
        )),
    }
}

// A run from slot k of a store, which is kept open for change.
fn admit(rt: &impl Machine, s: Settings, run: &mut Run, k: usize, file: &[u8]) -> Result<(), Told> {
    let path = name(rt, s);
    match open_update(rt, path.bytes()) {
        Ok(kept) => {
            resume(rt, run, kept, k, path.bytes(), file);
            Ok(())
        }
        Err(why) => Err(failed(rt, b"cannot change ", path.bytes(), why)),
    }
}

// The same of a store that is open.
fn resume(rt: &impl Machine, run: &mut Run, kept: File, k: usize, path: &[u8], file: &[u8]) {
    if slots::torn(file, 1 - k % 2) {
        wrong(
            rt,
            path,
            b": the last change was cut short; the state before it holds\n",
        );
    }
    run.pictures = slots::pictures_of(file, k);
    run.order = slots::order_of(file, k);
    run.kept = Some(kept);
}

// The run as it begins: with no store, with a new one, which is made, or with one that is loaded.
pub fn begin(
    rt: &impl Machine,
    s: Settings,
    known: usize,
    background: &mut [u8],
    store: &mut [u8],
    links: &mut [u16],
    directory: &mut [u8],
    values: &mut [u8],
    file: &mut [u8],
) -> Result<Run, Told> {
    let start = load(
        rt,
        s,
        background,
        store,
        links,
        directory,
        values,
        front(file, known),
    )?;
    let lent = Lent {
        background,
        store,
        links,
        directory,
        values,
    };
    let mut run = idle(s, start.session);
    match start.slot {
        Some(k) => admit(rt, s, &mut run, k, file)?,
        None => save(rt, s, &mut run, &lent, file)?,
    }
    Ok(run)
}
