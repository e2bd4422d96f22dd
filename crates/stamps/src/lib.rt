// What a format shows of a clock: the date or the time of day, in data.
//
// Paper 02, §10: "In data, `TD` and `TT` become elements". `stamp_text` writes what a format shows of a clock (specs/Texts.antt), at most fourteen bytes. "Unfit data
// is judged over all clock values": `stamp_length` and `stamp_good` say how long that is and whether every byte may stand in data of a kind, by the format alone
// (specs/Always.antt), and the main theorem (proofs/Shown.antt) is that this is so for every legal clock.
#![tactic(auto)]

ghost use Rattle.std.specs.Prelude.{◌≡◌, [], ◌-◌, ◌*◌};
ghost use Rattle.stamps.specs.Texts.{two_digits, month_letter, month_name, date_shown, time_shown, shown, marked, stamp_text};
ghost use Rattle.stamps.specs.Laying.{laid, added, added_all};
ghost use Rattle.stamps.specs.Always.{length_of, marked_length, stamp_length, good_field, good_marked, stamp_good};

use calendar::Clock;
use formats::{Format, Stamp};
use ground::{both, byte, either, wide};
use kinds::{Kind, in_class};

// The bytes shown, at the front of fourteen, and how many they are: a text as long as its bytes would want the heap.
#[derive(Clone, Copy)]
pub struct Text {
    pub bytes: [u8; 14],
    pub length: usize,
}

const MONTHS: [u8; 36] = *b"JANFEBMARAPRMAYJUNJULAUGSEPOCTNOVDEC";

// Where a month's name starts.
fn start(m: u8) -> usize
    ensures { result ≡ 3 * (m - 1) }
{
    if 0 < m { 3 * (wide(m) - 1) } else { 0 }
}

// Letter k of a month's name.
fn month_letter(m: u8, k: u8) -> u8
    ensures { result ≡ month_letter m k }
{
    byte(&MONTHS, start(m) + wide(k))
}

impl Text {
    fn none() -> Text
        ensures { result ≡ laid [] }
    {
        Text {
            bytes: [0; 14],
            length: 0,
        }
    }

    // One byte more, if there is room.
    fn add(self, b: u8) -> Text
        ensures { result ≡ added self b }
    {
        let mut bytes = self.bytes;
        let n = self.length;
        if n < 14 {
            bytes[n] = b;
            return Text {
                bytes,
                length: n + 1,
            };
        }
        self
    }

    fn add_two(self, n: u8) -> Text
        ensures { result ≡ added_all self (two_digits n) }
    {
        self.add(48 + n / 10 % 10).add(48 + n % 10)
    }

    fn add_month(self, m: u8) -> Text
        ensures { result ≡ added_all self (month_name m) }
    {
        self.add(month_letter(m, 0))
            .add(month_letter(m, 1))
            .add(month_letter(m, 2))
    }

    fn add_date(self, c: Clock, x: u8) -> Text
        ensures { result ≡ added_all self (date_shown c x) }
    {
        match x {
            1 => self.add_two(c.year),
            2 => self.add(b'2').add(b'0').add_two(c.year),
            3 => self.add_month(c.month),
            4 => self.add_two(c.month),
            5 => self.add_two(c.day),
            _ => self,
        }
    }

    fn add_time(self, c: Clock, x: u8) -> Text
        ensures { result ≡ added_all self (time_shown c x) }
    {
        match x {
            1 => self.add_two(c.hour),
            2 => self.add_two(c.minute),
            3 => self.add_two(c.second),
            _ => self,
        }
    }

    fn add_field(self, stamp: Stamp, c: Clock, x: u8) -> Text
        ensures { result ≡ added_all self (shown stamp c x) }
    {
        match stamp {
            Stamp::Date => self.add_date(c, x),
            Stamp::Time => self.add_time(c, x),
        }
    }

    fn add_marked(self, stamp: Stamp, c: Clock, m: u8, x: u8) -> Text
        ensures { result ≡ added_all self (marked stamp c m x) }
    {
        if x == 0 {
            return self;
        }
        self.add(m).add_field(stamp, c, x)
    }
}

// What a format shows of a clock.
pub fn stamp_text(stamp: Stamp, clock: Clock, format: Format) -> Text
    ensures { result ≡ laid (stamp_text stamp clock format) }
{
    let first = Text::none().add_field(stamp, clock, format.first);
    let second = first.add_marked(stamp, clock, format.mark1, format.second);
    second.add_marked(stamp, clock, format.mark2, format.third)
}

fn date_length(x: u8) -> usize
    ensures { result ≡ length_of Stamp.Date x }
{
    match x {
        1 => 2,
        2 => 4,
        3 => 3,
        4 => 2,
        5 => 2,
        _ => 0,
    }
}

fn time_length(x: u8) -> usize
    ensures { result ≡ length_of Stamp.Time x }
{
    match x {
        1 => 2,
        2 => 2,
        3 => 2,
        _ => 0,
    }
}

fn length_of(stamp: Stamp, x: u8) -> usize
    ensures { result ≡ length_of stamp x }
{
    match stamp {
        Stamp::Date => date_length(x),
        Stamp::Time => time_length(x),
    }
}

fn marked_length(stamp: Stamp, x: u8) -> usize
    ensures { result ≡ marked_length stamp x }
{
    if x == 0 {
        return 0;
    }
    1 + length_of(stamp, x)
}

// How many bytes a format shows, whatever the clock says.
pub fn stamp_length(stamp: Stamp, format: Format) -> usize
    ensures { result ≡ stamp_length stamp format }
{
    let further = marked_length(stamp, format.second) + marked_length(stamp, format.third);
    length_of(stamp, format.first) + further
}

fn good_field(kind: Kind, stamp: Stamp, x: u8) -> bool
    ensures { result ≡ good_field kind stamp x }
{
    match stamp {
        Stamp::Date => either(x != 3, in_class(kind, b'A')),
        Stamp::Time => true,
    }
}

fn good_marked(kind: Kind, stamp: Stamp, m: u8, x: u8) -> bool
    ensures { result ≡ good_marked kind stamp m x }
{
    either(x == 0, both(in_class(kind, m), good_field(kind, stamp, x)))
}

// Whether every byte that a format shows may stand in data of a kind, whatever the clock says.
pub fn stamp_good(kind: Kind, stamp: Stamp, format: Format) -> bool
    ensures { result ≡ stamp_good kind stamp format }
{
    let first = good_field(kind, stamp, format.first);
    let second = good_marked(kind, stamp, format.mark1, format.second);
    let third = good_marked(kind, stamp, format.mark2, format.third);
    both(first, both(second, third))
}
