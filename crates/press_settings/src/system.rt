// What a run asks of the machine: the words of its command line, files by their names, the clock, and the three streams.
use ground::capped_sum;
use std::env::FillError;
use std::fs::{File, OpenOptions};
use std::io::Read;
use std::rt::{Clock, Env, Files};
use std::{fs, io, str};

// Standard output is that of `Print`. Standard error is written in bytes, since a line that is refused need not be text.
pub trait Machine: Clock + Env + Files<File = File> + Print {
    // Some bytes of standard input at the front of a window, and how many; 0 at its end.
    fn read_input(&self, window: &mut [u8]) -> io::Result<usize>;

    fn write_error(&self, text: &[u8]) -> io::Result<()>;
}

impl Machine for HostRuntime {
    fn read_input(&self, window: &mut [u8]) -> io::Result<usize> {
        self.stdin().read(window)
    }

    fn write_error(&self, text: &[u8]) -> io::Result<()> {
        self.stderr().write_all(text)
    }
}

fn is_missing(rt: &impl Env, i: usize) -> bool {
    let mut text = [0u8; 1];
    matches!(rt.arg(i, &mut text), Err(FillError::NotPresent))
}

// How many arguments there are, the program's own name among them.
pub fn argument_count(rt: &impl Env) -> usize {
    for i in 0..usize::MAX {
        if is_missing(rt, i) {
            return i;
        }
    }
    usize::MAX
}

// The system's number for a name in bytes that are no characters.
const NO_CHARACTERS: i32 = 84;

// A file's name as text, by which alone it is asked for: UTF-8.
fn text_of(name: &[u8]) -> io::Result<&str> {
    str::from_utf8(name).map_err(|_| io::Error::from_raw_os_error(NO_CHARACTERS))
}

// A file that is there, for reading.
pub fn open_read<R: Files>(rt: &R, name: &[u8]) -> io::Result<R::File> {
    File::open(rt, text_of(name)?)
}

// A file that is there, for reading and change; its bytes stay.
pub fn open_update<R: Files>(rt: &R, name: &[u8]) -> io::Result<R::File> {
    let text = text_of(name)?;
    OpenOptions::new().read(true).write(true).open(rt, text)
}

// A file for writing, made where it is missing and emptied where it is there.
pub fn create<R: Files>(rt: &R, name: &[u8]) -> io::Result<R::File> {
    File::create(rt, text_of(name)?)
}

// A file for writing that was not there.
pub fn create_new<R: Files>(rt: &R, name: &[u8]) -> io::Result<R::File> {
    let text = text_of(name)?;
    OpenOptions::new()
        .write(true)
        .create_new(true)
        .open(rt, text)
}

pub fn rename(rt: &impl Files, from: &[u8], to: &[u8]) -> io::Result<()> {
    fs::rename(rt, text_of(from)?, text_of(to)?)
}

pub fn remove(rt: &impl Files, name: &[u8]) -> io::Result<()> {
    fs::remove_file(rt, text_of(name)?)
}

// The bytes that are read until the buffer is full, the input ends or a read fails; how many there are at the buffer's front.
pub fn read_full(input: &mut impl Read, buffer: &mut [u8]) -> usize {
    let mut done = 0;
    for _ in 0..u64::MAX {
        if buffer.len() <= done {
            return done;
        }
        match input.read(&mut buffer[done..]) {
            Ok(0) => return done,
            Ok(n) => done = capped_sum(done, n),
            Err(_) => return done,
        }
    }
    done
}
