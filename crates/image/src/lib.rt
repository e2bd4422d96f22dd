// The session's image: 83 bytes, every number low byte first.
//
// Paper 01: "The session holds width, length, turn, origin, counters with set or unset, active form, labels owed and drawn"; and since paper 02, §6, the number
// of free portions, and §10, the clock and the formats. A caller of the exported calls keeps these as plain bytes, and any 83 bytes are some session.
// specs/Image.antt says where each number stands; `encode` and `decode` promise one equation each with `image_of` and `session_of`, and image and
// session are found again from each other (proofs/Inverse.antt).
#![tactic(auto)]

ghost use Rattle.std.specs.Prelude.{◌≡◌, ◌∷◌, ◌+◌, ◌*◌, ◌/◌, ◌%◌, ◌<◌};
ghost use Rattle.std.proofs.lemmas.List.Edits.{sets};
ghost use Rattle.counters.specs.Counters.{counters};
ghost use Rattle.low_first.specs.Low.{number_at, bytes_of};
ghost use Rattle.image.specs.Image.{image_size, every_five, counter_bytes, image_clock, image_format, clock_bytes, format_bytes, head_of, session_of, image_of};

use calendar::Clock;
use counters::Counters;
use formats::{Format, Formats};
use ground::{byte, put};
use session::Session;

// The bytes of an image.
pub const IMAGE: usize = 83;

fn pair(a: u8, b: u8) -> u16
    ensures { result ≡ a + 256 * b }
{
    u16::from_le_bytes([a, b])
}

fn joined(low: u16, high: u16) -> u32
    ensures { result ≡ low + 65536 * high }
{
    u32::from(low) + 65536 * u32::from(high)
}

fn word_at(image: &[u8], at: usize) -> u16
    requires { at < image_size + 2 }
    ensures { result ≡ number_at 2 image.now at }
{
    pair(byte(image, at), byte(image, at + 1))
}

fn value_at(image: &[u8], at: usize) -> u32
    requires { at < image_size }
    ensures { result ≡ number_at 4 image.now at }
{
    let low = word_at(image, at);
    let high = word_at(image, at + 2);
    joined(low, high)
}

fn counters_of(image: &[u8]) -> Counters
    ensures { result ≡ counters (every_five 1 10 image.now 15) (every_five 4 10 image.now 16) }
{
    let mut set = [0u8; 10];
    let mut value = [0u32; 10];
    for k in 0..10 {
        set[k] = byte(image, 15 + 5 * k);
        value[k] = value_at(image, 16 + 5 * k);
    }
    Counters { set, value }
}

fn clock_at(image: &[u8], at: usize) -> Clock
    requires { at < image_size }
    ensures { result ≡ image_clock image.now at }
{
    Clock {
        year: byte(image, at),
        month: byte(image, at + 1),
        day: byte(image, at + 2),
        hour: byte(image, at + 3),
        minute: byte(image, at + 4),
        second: byte(image, at + 5),
    }
}

fn format_at(image: &[u8], at: usize) -> Format
    requires { at < image_size }
    ensures { result ≡ image_format image.now at }
{
    Format {
        first: byte(image, at),
        mark1: byte(image, at + 1),
        second: byte(image, at + 2),
        mark2: byte(image, at + 3),
        third: byte(image, at + 4),
    }
}

// The session of an image; past its end stand zeros.
pub fn decode(image: &[u8]) -> Session
    ensures { result ≡ session_of image.now }
{
    let width = word_at(image, 0);
    let length = word_at(image, 2);
    let turn = byte(image, 4);
    let x = word_at(image, 5);
    let y = word_at(image, 7);
    let active = word_at(image, 9);
    let owed = word_at(image, 11);
    let drawn = word_at(image, 13);
    let counters = counters_of(image);
    let free = word_at(image, 65);
    let clock = clock_at(image, 67);
    let date = format_at(image, 73);
    let time = format_at(image, 78);
    let formats = Formats { date, time };
    Session {
        width,
        length,
        turn,
        x,
        y,
        active,
        owed,
        drawn,
        counters,
        free,
        clock,
        formats,
    }
}

fn low(x: u16) -> u8
    ensures { result ≡ x % 256 }
{
    (x % 256) as u8
}

fn high(x: u16) -> u8
    ensures { result ≡ x / 256 % 256 }
{
    (x / 256 % 256) as u8
}

fn head(s: Session) -> [u8; 15]
    ensures { result ≡ head_of s }
{
    [
        low(s.width),
        high(s.width),
        low(s.length),
        high(s.length),
        s.turn,
        low(s.x),
        high(s.x),
        low(s.y),
        high(s.y),
        low(s.active),
        high(s.active),
        low(s.owed),
        high(s.owed),
        low(s.drawn),
        high(s.drawn),
    ]
}

fn put_counter(image: &mut [u8], at: usize, set: u8, value: u32)
    ensures { image.new ≡ sets image.old at (set ∷ bytes_of 4 value) }
{
    let bytes = [
        set,
        (value % 256) as u8,
        (value / 256 % 256) as u8,
        (value / 256 / 256 % 256) as u8,
        (value / 256 / 256 / 256 % 256) as u8,
    ];
    put(image, at, &bytes);
}

fn put_counters(image: &mut [u8], c: Counters)
    ensures { image.new ≡ sets image.old 15 (counter_bytes 10 0 c) }
{
    let set = c.set;
    let value = c.value;
    for k in 0..10 {
        put_counter(image, 15 + 5 * k, set[k], value[k]);
    }
}

fn clock_bytes(c: Clock) -> [u8; 6]
    ensures { result ≡ clock_bytes c }
{
    [c.year, c.month, c.day, c.hour, c.minute, c.second]
}

fn format_bytes(f: Format) -> [u8; 5]
    ensures { result ≡ format_bytes f }
{
    [f.first, f.mark1, f.second, f.mark2, f.third]
}

// The image of a session, stored from the front on.
pub fn encode(s: Session, image: &mut [u8])
    ensures { image.new ≡ sets image.old 0 (image_of s) }
{
    let bytes = head(s);
    put(image, 0, &bytes);
    let counters = s.counters;
    put_counters(image, counters);
    let first = low(s.free);
    let second = high(s.free);
    let free = [first, second];
    put(image, 65, &free);
    let clock = clock_bytes(s.clock);
    put(image, 67, &clock);
    let formats = s.formats;
    let date = format_bytes(formats.date);
    put(image, 73, &date);
    let time = format_bytes(formats.time);
    put(image, 78, &time);
}
