// The command line, the font, the files: each is found good before anything is done.
use crate::saying::{complain, failed, wrong};
use crate::system::{argument_count, open_read, read_full};
use crate::{Machine, Name, Question, Settings, Task, Told};
use ground::{capped_sum, front};
use numbers::NOUGHT;
use options::{Kind, Word};
use std::fs::File;
use std::io::Read;

fn usage(rt: &impl Machine) {
    complain(
        rt,
        b"usage: press [-rows N] [-font F] [-out PREFIX] [-store FILE] [-zone MINUTES] [-noclock] [-quiet] [FILE ..]\n",
    );
    complain(
        rt,
        b"   or: press [-rows N] [-store FILE] [-quiet] -fits form NAME | picture NAME SIZE\n",
    );
    complain(rt, b"   or: press [-rows N] [-quiet] -repair -store FILE\n");
}

// An option that is not one, or lacks its value.
fn refuse(rt: &impl Machine, text: &[u8], why: &[u8]) -> Told {
    let told = wrong(rt, text, why);
    usage(rt);
    told
}

fn rows(rt: &impl Machine, i: usize) -> Result<usize, Told> {
    let text = Name::argument(rt, i);
    match options::rows(text.bytes()) {
        Some(rows) => Ok(rows),
        None => Err(refuse(rt, b"-rows", b" needs a number from 1 to 4000\n")),
    }
}

fn zone(rt: &impl Machine, i: usize) -> Result<usize, Told> {
    let text = Name::argument(rt, i);
    match options::zone(text.bytes()) {
        Some(zone) => Ok(zone),
        None => Err(refuse(
            rt,
            b"-zone",
            b" needs the minutes ahead of UTC, from -1439 to +1439\n",
        )),
    }
}

// The argument behind an option that has a name there: font, out or store.
fn named(rt: &impl Machine, s: Settings, i: usize, option: &[u8]) -> Result<usize, Told> {
    if s.count <= i {
        return Err(refuse(rt, option, b" needs a name\n"));
    }
    Ok(i)
}

fn unasked(rt: &impl Machine) -> Told {
    refuse(
        rt,
        b"-fits",
        b" needs form NAME, or picture NAME SIZE with SIZE in 1 to 9 digits\n",
    )
}

// What is asked for, where its name can be shown again.
fn asked(rt: &impl Machine, question: Question) -> Result<Task, Told> {
    match Name::found(rt, question.name) {
        Some(_) => Ok(Task::Answer(question)),
        None => Err(refuse(rt, b"a name", b" is too long\n")),
    }
}

fn asked_form(rt: &impl Machine, s: Settings, name: usize) -> Result<Task, Told> {
    if s.count <= name {
        return Err(unasked(rt));
    }
    asked(rt, Question { name, size: None })
}

fn asked_picture(rt: &impl Machine, name: usize) -> Result<Task, Told> {
    let text = Name::argument(rt, capped_sum(name, 1));
    match options::whole_number(text.bytes()) {
        None => Err(unasked(rt)),
        size => asked(rt, Question { name, size }),
    }
}

// One store cannot be asked as it is and be repaired.
fn both_asked(rt: &impl Machine) -> Told {
    refuse(rt, b"-fits", b" and -repair do not go together\n")
}

// -fits and what is asked for; the place behind it. Of two questions one would go without its answer.
fn question(rt: &impl Machine, s: &mut Settings, at: usize) -> Result<usize, Told> {
    match s.task {
        Task::Labels => {}
        Task::Answer(_) => {
            return Err(refuse(
                rt,
                b"-fits",
                b" asks for one form or picture, not for two\n",
            ));
        }
        Task::Repair => return Err(both_asked(rt)),
    }
    let text = Name::argument(rt, capped_sum(at, 1));
    match options::kind_of(text.bytes()) {
        Some(Kind::Form) => {
            s.task = asked_form(rt, *s, capped_sum(at, 2))?;
            Ok(capped_sum(at, 3))
        }
        Some(Kind::Picture) => {
            s.task = asked_picture(rt, capped_sum(at, 2))?;
            Ok(capped_sum(at, 4))
        }
        None => Err(unasked(rt)),
    }
}

fn repair(rt: &impl Machine, s: &mut Settings, at: usize) -> Result<usize, Told> {
    if let Task::Answer(_) = s.task {
        return Err(both_asked(rt));
    }
    s.task = Task::Repair;
    Ok(capped_sum(at, 1))
}

// The first file of commands, with which the options end. Who asks or repairs names none, so that nobody takes its commands for done.
fn first_file(rt: &impl Machine, s: &mut Settings, at: usize, text: &[u8]) -> Result<usize, Told> {
    match s.task {
        Task::Labels => {
            s.files = Some(at);
            Ok(at)
        }
        Task::Answer(_) => Err(refuse(
            rt,
            text,
            b" is one word too many: -fits reads no commands, and takes no file\n",
        )),
        Task::Repair => Err(refuse(
            rt,
            text,
            b" is one word too many: -repair reads no commands, and takes no file\n",
        )),
    }
}

// The option at a place, and the place behind it.
fn option(rt: &impl Machine, s: &mut Settings, at: usize) -> Result<usize, Told> {
    let Some(text) = Name::found(rt, at) else {
        return Err(refuse(rt, b"an argument", b" is too long\n"));
    };
    let word = text.bytes();
    if options::asks_repair(word) {
        return repair(rt, s, at);
    }
    let next = capped_sum(at, 1);
    match options::word_of(word) {
        Word::Rows => s.rows = Some(rows(rt, next)?),
        Word::Font => s.font = Some(named(rt, *s, next, word)?),
        Word::Out => s.out = Some(named(rt, *s, next, word)?),
        Word::Store => s.store = Some(named(rt, *s, next, word)?),
        Word::Zone => s.clock = s.clock.and(Some(zone(rt, next)?)),
        Word::NoClock => {
            s.clock = None;
            return Ok(next);
        }
        Word::Quiet => {
            s.quiet = true;
            return Ok(next);
        }
        Word::Fits => return question(rt, s, at),
        Word::Unknown => return Err(refuse(rt, word, b" is no option\n")),
        Word::File => return first_file(rt, s, at, word),
    }
    Ok(capped_sum(at, 2))
}

// The words of the command line, one after the other, up to the first file.
fn words_read(rt: &impl Machine) -> Result<Settings, Told> {
    let mut s = Settings {
        rows: None,
        font: None,
        out: None,
        store: None,
        files: None,
        count: argument_count(rt),
        task: Task::Labels,
        clock: Some(NOUGHT),
        quiet: false,
    };
    let mut at = 1;
    for _ in 0..65536u32 {
        if s.files.is_some() || s.count <= at {
            return Ok(s);
        }
        at = option(rt, &mut s, at)?;
    }
    Ok(s)
}

// The command line. A store that is to be repaired must be named, before the word -repair or behind it.
pub fn command_line(rt: &impl Machine) -> Result<Settings, Told> {
    let s = words_read(rt)?;
    match s.task {
        Task::Repair if s.store.is_none() => Err(refuse(rt, b"-repair", b" needs -store FILE\n")),
        _ => Ok(s),
    }
}

// The font's bytes at the front of a buffer, and how many they are.
pub fn font(rt: &impl Machine, s: Settings, font: &mut [u8]) -> Result<usize, Told> {
    let Some(i) = s.font else {
        let plain = plainfont::bytes();
        ground::put(font, 0, &plain);
        return Ok(plain.len());
    };
    let name = Name::argument(rt, i);
    match open_read(rt, name.bytes()) {
        Ok(file) => read_font(rt, name.bytes(), file, font),
        Err(why) => Err(failed(rt, b"cannot open the font ", name.bytes(), why)),
    }
}

// The same of a font file that is open.
fn read_font(
    rt: &impl Machine,
    name: &[u8],
    mut file: File,
    font: &mut [u8],
) -> Result<usize, Told> {
    let k = read_full(&mut file, font);
    if font::is_legal(front(font, k)) {
        return Ok(k);
    }
    Err(wrong(
        rt,
        name,
        b" is no font: it breaks the rules of a font file\n",
    ))
}

// A file that cannot be opened and read is told.
fn readable_file(rt: &impl Machine, i: usize) -> Result<(), Told> {
    let name = Name::argument(rt, i);
    match open_read(rt, name.bytes()) {
        Ok(file) => gives_a_byte(rt, name.bytes(), file),
        Err(why) => Err(failed(rt, b"cannot open ", name.bytes(), why)),
    }
}

// The same of a file that is open: its first byte is asked for.
fn gives_a_byte(rt: &impl Machine, name: &[u8], mut file: File) -> Result<(), Told> {
    let mut one = [0u8; 1];
    match file.read(&mut one) {
        Ok(_) => Ok(()),
        Err(why) => Err(failed(rt, b"cannot read ", name, why)),
    }
}

// The files of the command line: the first that cannot be read is told.
pub fn readable(rt: &impl Machine, s: Settings) -> Result<(), Told> {
    let Some(first) = s.files else {
        return Ok(());
    };
    for i in first..s.count {
        readable_file(rt, i)?;
    }
    Ok(())
}

// What the names of pictures start with.
pub fn prefix(rt: &impl Machine, s: Settings) -> Name {
    match s.out {
        Some(i) => Name::argument(rt, i),
        None => Name::joined(b"label", b""),
    }
}
