// Labels as picture files, one after the other.
//
// A label that is owed is drawn, room for its picture is made on disk, then it is counted and saved, and only then its picture is written and named: so
// after a crash no number is printed twice, and at most one label is missing.
#![tactic(auto)]

use answers::is_taken;
use ground::{capped_sum, front};
use press_settings::saying::{complain, failed};
use press_settings::system::{create, remove, rename};
use press_settings::{Machine, Name, Settings, Told, saying};
use press_store::{LAST, Run, next_number, rooms, save_slot, sync_folder};
use session::Session;
use station::Labelled;
use std::fs::File;
use std::io;
use std::io::{Seek, SeekFrom, Write};

// Room for a picture of n bytes, so that a full disk is met before the label is counted; its file, which is open.
fn reserve(rt: &impl Machine, name: &[u8], n: usize) -> Result<File, Told> {
    match create(rt, name) {
        Ok(file) => blank(rt, file, name, n),
        Err(why) => Err(failed(rt, b"cannot make ", name, why)),
    }
}

// A file that is open, with n bytes written; where they cannot be, that is told and the file is removed.
fn blank(rt: &impl Machine, mut file: File, name: &[u8], n: usize) -> Result<File, Told> {
    let blank = rooms::rows();
    match file.write_all(front(&blank, n)) {
        Ok(()) => Ok(file),
        Err(why) => {
            let told = failed(rt, b"cannot write ", name, why);
            drop(file);
            let _ = remove(rt, name);
            Err(told)
        }
    }
}

// The picture in its room, and on disk where it is to last.
fn put_in_room(mut file: File, picture: &[u8], lasting: bool) -> io::Result<()> {
    let _ = file.seek(SeekFrom::Start(0));
    let written = file.write_all(picture);
    if lasting {
        file.sync_all()?;
    }
    written
}

// The picture in its room, and then under its name.
fn fill(
    rt: &impl Machine,
    file: File,
    part: &[u8],
    name: &[u8],
    picture: &[u8],
    lasting: bool,
) -> io::Result<()> {
    put_in_room(file, picture, lasting)?;
    rename(rt, part, name)?;
    if lasting {
        sync_folder(rt, name);
    }
    Ok(())
}

// One label more, counted and saved where there is a store.
fn count(
    s: Settings,
    run: &mut Run,
    after: Session,
    values: &[u8],
    file: &mut [u8],
) -> io::Result<()> {
    run.session = after;
    run.pictures = next_number(run.pictures);
    if s.store.is_some() {
        save_slot(run, values, file)?;
        run.order = next_number(run.order);
    }
    Ok(())
}

// A label that is drawn: room for its picture, then counted and saved, and only then written.
fn write(
    rt: &impl Machine,
    s: Settings,
    run: &mut Run,
    after: Session,
    page: &[u8],
    picture: &[u8],
    values: &[u8],
    file: &mut [u8],
) -> Result<(), Told> {
    let prefix = press_settings::prefix(rt, s);
    let part = Name::joined(prefix.bytes(), b".part");
    let name = Name::picture(prefix.bytes(), next_number(run.pictures) as usize);
    let room = reserve(rt, part.bytes(), picture.len())?;
    if let Err(why) = count(s, run, after, values, file) {
        return Err(failed(
            rt,
            b"the label is not counted: cannot save before ",
            name.bytes(),
            why,
        ));
    }
    let lasting = s.store.is_some();
    if let Err(why) = fill(rt, room, part.bytes(), name.bytes(), picture, lasting) {
        return Err(failed(
            rt,
            b"the label is counted and missing: cannot write ",
            name.bytes(),
            why,
        ));
    }
    run.labels = capped_sum(run.labels, 1);
    saying::label(rt, s, after, name.bytes(), page);
    Ok(())
}

// A label that is drawn, as a picture.
fn pictured(
    rt: &impl Machine,
    s: Settings,
    run: &mut Run,
    after: Session,
    page: &[u8],
    values: &[u8],
    file: &mut [u8],
) -> Result<(), Told> {
    let before = run.session;
    let mut picture = rooms::portions();
    let n = pbm::picture(page, before.width, before.length, &mut picture);
    write(rt, s, run, after, page, front(&picture, n), values, file)
}

// A label call that is answered.
fn answered(
    rt: &impl Machine,
    s: Settings,
    run: &mut Run,
    l: Labelled,
    page: &[u8],
    values: &[u8],
    file: &mut [u8],
) -> Result<(), Told> {
    let answer = l.answer;
    if !is_taken(answer) {
        saying::answer(rt, s, run.file, run.line, answer, b"a label");
        return Err(Told);
    }
    let after = l.session;
    pictured(rt, s, run, after, page, values, file)
}

// One label that is owed, drawn on as much of a page as the background has.
pub fn one(
    rt: &impl Machine,
    s: Settings,
    run: &mut Run,
    font: &[u8],
    background: &[u8],
    store: &[u8],
    links: &[u16],
    directory: &[u8],
    values: &[u8],
    file: &mut [u8],
) -> Result<(), Told> {
    if run.pictures == LAST || run.order == LAST {
        complain(rt, b"press: no number is left for pictures or changes\n");
        return Err(Told);
    }
    let mut page = rooms::rows();
    let n = background.len();
    let l = station::label(
        run.session,
        font,
        rooms::cut(&mut page, n),
        background,
        store,
        links,
        directory,
        values,
    );
    answered(rt, s, run, l, front(&page, n), values, file)
}
