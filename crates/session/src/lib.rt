// The session, and its methods.
//
// Paper 01, "What is lent": "The session holds width, length, turn, origin, counters with set or unset (then 0), active form, labels owed
// and drawn"; and since paper 02, §6, the number of free portions, and §10, the clock and the formats of date and time outside forms. It is plain
// unsigned numbers by value, so that any bytes are some session and sound alone judges it; a number that goes into it is cut to its 16 bits by one
// function for all, so that no caller is asked for anything. What changes it is a method that takes the session and hands the next one back: the
// origin replaced, the counters moved, a label drawn (`labels`). Whether a session is sound with the memory beside it is left to crate `sound`, and
// when a method is called to crate `station`.
#![tactic(auto)]

ghost use Rattle.std.specs.Prelude.{◌≡◌};
ghost use Rattle.session.specs.Session.{fresh, none, blank, sized, turning, based, activated, counting, roomed, no_clock, no_format, no_formats, clocked, formatted, owing, moved, counted, sixteen_bits};

pub use active_form::NO_FORM;
use answers::Answer;
use calendar::Clock;
use counters::Counters;
use declarations::Declared;
use formats::{Format, Formats};

mod labels; // one label drawn

// "width 80 to 608", "origin 0..2048, 0..4096".
pub const LEAST_WIDTH: u16 = 80;

pub const MOST_WIDTH: u16 = 608;

pub const MOST_X: u16 = 2048;

pub const MOST_Y: u16 = 4096;

// "owed plus drawn at most 65,535."
pub const MOST_LABELS: u16 = 65535;

// Numbers as they stand in the image of a session.
#[derive(Clone, Copy)]
pub struct Session {
    pub width: u16,
    pub length: u16,
    pub turn: u8,
    pub x: u16,
    pub y: u16,
    pub active: u16,
    pub owed: u16,
    pub drawn: u16,
    pub counters: Counters,
    pub free: u16,
    pub clock: Clock,
    pub formats: Formats,
}

// What opening and a label call answer. No Result: the exported calls hand C an answer and a session, on a refusal too.
#[derive(Clone, Copy)]
pub struct Labelled {
    pub answer: Answer,
    pub session: Session,
}

// A number as a session keeps it.
pub fn sixteen_bits(n: usize) -> u16
    ensures { result ≡ sixteen_bits n }
{
    if n < 65535 { n as u16 } else { 65535 }
}

// No counter is set.
fn unset() -> Counters
    ensures { result ≡ blank }
{
    Counters {
        set: [0, 0, 0, 0, 0, 0, 0, 0, 0, 0],
        value: [0, 0, 0, 0, 0, 0, 0, 0, 0, 0],
    }
}

// Zeros where a clock stands.
fn no_clock() -> Clock
    ensures { result ≡ no_clock }
{
    Clock {
        year: 0,
        month: 0,
        day: 0,
        hour: 0,
        minute: 0,
        second: 0,
    }
}

fn no_format() -> Format
    ensures { result ≡ no_format }
{
    Format {
        first: 0,
        mark1: 0,
        second: 0,
        mark2: 0,
        third: 0,
    }
}

fn no_formats() -> Formats
    ensures { result ≡ no_formats }
{
    Formats {
        date: no_format(),
        time: no_format(),
    }
}

impl Session {
    // "Opening .. frees all portions, and sets width 608, length N, origin 0,0, ZT, nothing owed."
    pub fn fresh(rows: u16, portions: u16) -> Session
        ensures { result ≡ fresh rows portions }
    {
        let counters = unset();
        Session {
            width: MOST_WIDTH,
            length: rows,
            turn: 0,
            x: 0,
            y: 0,
            active: NO_FORM,
            owed: 0,
            drawn: 0,
            counters: counters,
            free: portions,
            clock: Clock::fresh(),
            formats: Formats::examples(),
        }
    }

    // "a refused opening returns zeros."
    pub fn none() -> Session
        ensures { result ≡ none }
    {
        let counters = unset();
        Session {
            width: 0,
            length: 0,
            turn: 0,
            x: 0,
            y: 0,
            active: 0,
            owed: 0,
            drawn: 0,
            counters: counters,
            free: 0,
            clock: no_clock(),
            formats: no_formats(),
        }
    }

    // Q and q.
    pub fn sized(self, width: u16, length: u16) -> Session
        ensures { result ≡ sized self width length }
    {
        let mut s = self;
        s.width = width;
        s.length = length;
        s
    }

    // ZT (0) and ZB (1).
    pub fn turning(self, turn: u8) -> Session
        ensures { result ≡ turning self turn }
    {
        let mut s = self;
        s.turn = turn;
        s
    }

    // R: "It replaces the earlier one."
    pub fn based(self, x: u16, y: u16) -> Session
        ensures { result ≡ based self x y }
    {
        let mut s = self;
        s.x = x;
        s.y = y;
        s
    }

    // "FR unsets all values; so does the end of activity."
    pub fn activated(self, active: u16) -> Session
        ensures { result ≡ activated self active }
    {
        let mut s = self;
        s.active = active;
        s.counters = unset();
        s
    }

    // ?C
    pub fn counting(self, counters: Counters) -> Session
        ensures { result ≡ counting self counters }
    {
        let mut s = self;
        s.counters = counters;
        s
    }

    // The number of free portions, after a command that stores or erases.
    pub fn roomed(self, free: u16) -> Session
        ensures { result ≡ roomed self free }
    {
        let mut s = self;
        s.free = free;
        s
    }

    // TS, and the clock call.
    pub fn clocked(self, clock: Clock) -> Session
        ensures { result ≡ clocked self clock }
    {
        let mut s = self;
        s.clock = clock;
        s
    }

    // TD and TT outside a form.
    pub fn formatted(self, formats: Formats) -> Session
        ensures { result ≡ formatted self formats }
    {
        let mut s = self;
        s.formats = formats;
        s
    }

    // P: owed is k and drawn is 0.
    pub fn owing(self, k: u16) -> Session
        ensures { result ≡ owing self k }
    {
        let mut s = self;
        s.owed = k;
        s.drawn = 0;
        s
    }

    // A label call "moves counters", those that the active form declares.
    pub fn moved(self, declared: Declared) -> Session
        ensures { result ≡ moved self declared }
    {
        let counters = self.counters;
        self.counting(counter_steps::move_all(declared, counters))
    }

    // "and counts one drawn": one is taken from owed. With none owed, or 65,535 drawn, neither number moves.
    pub fn counted(self) -> Session
        ensures { result ≡ counted self }
    {
        let mut s = self;
        if s.owed == 0 {
            return s;
        }
        if s.drawn == MOST_LABELS {
            return s;
        }
        s.owed -= 1;
        s.drawn += 1;
        s
    }
}
