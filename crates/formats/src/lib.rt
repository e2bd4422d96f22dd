// Formats of the date and of the time of day: which there are.
//
// Paper 02, §10, has "`TD` and `TT` with the manual's formats, each field at most once, one separator byte between fields, one to three fields". A format is five
// numbers, and `legal_format` says whether five numbers that anybody may have written are one. At any time two formats are in force, the date's and the time's
// (`Formats`): at first the manual's examples. How a format is written in a line stands in crate `format_field`, what it shows of a clock in crate `stamps`.
#![tactic(auto)]

ghost use Rattle.std.specs.Prelude.{◌≡◌};
ghost use Rattle.formats.specs.Formats.{unit, new_unit, separator, absent, further, legal_format, example, format_of, with_format, examples, legal_formats, packed, unpacked};

use ground::{both, either, wide};
use kinds::is_between;

// What a format is for, and what an element of data shows: the date (`TD`) or the time of day (`TT`).
#[derive(Clone, Copy)]
pub enum Stamp {
    Date,
    Time,
}

// A field, and up to twice a separator and a field; 0 where none stands. No enums and Options: they stand in the session's image, and any bytes there are some
// format. The fields of a date are 1 Y2, 2 Y4, 3 ME, 4 MN, 5 DD, those of a time
// 1 H, 2 M, 3 S.
#[derive(Clone, Copy)]
pub struct Format {
    pub first: u8,
    pub mark1: u8,
    pub second: u8,
    pub mark2: u8,
    pub third: u8,
}

// The formats in force.
#[derive(Clone, Copy)]
pub struct Formats {
    pub date: Format,
    pub time: Format,
}

fn date_unit(x: u8) -> u8
    ensures { result ≡ unit Stamp.Date x }
{
    if is_between(1, 2, x) {
        return 1;
    }
    if is_between(3, 4, x) {
        return 2;
    }
    if x == 5 { 3 } else { 0 }
}

fn time_unit(x: u8) -> u8
    ensures { result ≡ unit Stamp.Time x }
{
    if is_between(1, 3, x) { x } else { 0 }
}

// Year or hour 1, month or minute 2, day or second 3, or no field.
pub fn unit(stamp: Stamp, x: u8) -> u8
    ensures { result ≡ unit stamp x }
{
    match stamp {
        Stamp::Date => date_unit(x),
        Stamp::Time => time_unit(x),
    }
}

// Whether a unit is one that has not come yet.
pub fn new_unit(u: u8, v: u8, n: u8) -> bool
    ensures { result ≡ new_unit u v n }
{
    both(n != 0, both(n != u, n != v))
}

// Whether a byte may stand between two fields.
pub fn is_separator(b: u8) -> bool
    ensures { result ≡ separator b }
{
    both(is_between(33, 126, b), b != b'"')
}

fn is_absent(m: u8, x: u8) -> bool
    ensures { result ≡ absent m x }
{
    both(m == 0, x == 0)
}

fn is_further(stamp: Stamp, u: u8, v: u8, m: u8, x: u8) -> bool
    ensures { result ≡ further stamp u v m x }
{
    both(is_separator(m), new_unit(u, v, unit(stamp, x)))
}

// Whether five numbers are a format.
pub fn legal_format(stamp: Stamp, f: Format) -> bool
    ensures { result ≡ legal_format stamp f }
{
    let u = unit(stamp, f.first);
    let v = unit(stamp, f.second);
    let no_third = is_absent(f.mark2, f.third);
    let third = is_further(stamp, u, v, f.mark2, f.third);
    let no_second = both(is_absent(f.mark1, f.second), no_third);
    let second = both(
        is_further(stamp, u, 0, f.mark1, f.second),
        either(no_third, third),
    );
    both(new_unit(0, 0, u), either(no_second, second))
}

impl Format {
    // The manual's example formats, `dd-me-y4` and `h:m:s`.
    pub fn example(stamp: Stamp) -> Format
        ensures { result ≡ example stamp }
    {
        match stamp {
            Stamp::Date => Format {
                first: 5,
                mark1: b'-',
                second: 3,
                mark2: b'-',
                third: 2,
            },
            Stamp::Time => Format {
                first: 1,
                mark1: b':',
                second: 2,
                mark2: b':',
                third: 3,
            },
        }
    }
}

impl Formats {
    // The formats that hold until others are set.
    pub fn examples() -> Formats
        ensures { result ≡ examples }
    {
        Formats {
            date: Format::example(Stamp::Date),
            time: Format::example(Stamp::Time),
        }
    }

    // The date's format, or the time's.
    pub fn of(self, stamp: Stamp) -> Format
        ensures { result ≡ format_of self stamp }
    {
        match stamp {
            Stamp::Date => self.date,
            Stamp::Time => self.time,
        }
    }

    // Another format for one of them; the other stays.
    pub fn with(self, stamp: Stamp, f: Format) -> Formats
        ensures { result ≡ with_format self stamp f }
    {
        let date = self.date;
        let time = self.time;
        match stamp {
            Stamp::Date => Formats { date: f, time },
            Stamp::Time => Formats { date, time: f },
        }
    }
}

// Whether both are formats.
pub fn legal_formats(fs: Formats) -> bool
    ensures { result ≡ legal_formats fs }
{
    both(
        legal_format(Stamp::Date, fs.date),
        legal_format(Stamp::Time, fs.time),
    )
}

// A format as one number.
pub fn pack(f: Format) -> usize
    ensures { result ≡ packed f }
{
    let third = 256 * wide(f.third);
    let second = 256 * (wide(f.second) + 256 * (wide(f.mark2) + third));
    wide(f.first) + 256 * (wide(f.mark1) + second)
}

// The format that a number stands for.
pub fn unpack(v: usize) -> Format
    ensures { result ≡ unpacked v }
{
    Format {
        first: (v % 256) as u8,
        mark1: (v / 256 % 256) as u8,
        second: (v / 256 / 256 % 256) as u8,
        mark2: (v / 256 / 256 / 256 % 256) as u8,
        third: (v / 256 / 256 / 256 / 256 % 256) as u8,
    }
}
