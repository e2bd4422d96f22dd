// Counters: their digits and their values.
//
// "A counter is its w digits." The session keeps ten of them, set or unset (then 0), each a number from 0 to 10^w-1; `?Cn,value` sets one, or is refused as
// undeclared (13) or unfit (17). The definitions (specs/Counters.antt) say this of any numbers, and each function here gives exactly what they say; that
// entering keeps every counter sound is proved in proofs/Sound.antt. What a counter's width and step are, a form declares (crate `declarations`); how it
// moves after each label stands in crate `counter_steps`.
#![tactic(auto)]

ghost use Rattle.std.specs.Prelude.{◌≡◌};
ghost use Rattle.counters.specs.Counters.{ten_to, digits_of, none_set, counter_set, counter_value, counter_entered, counter_sound};

use declarations::{Declared, Refused, tenth_byte, tenth_number};
use ground::{both, least};

// The session's ten counters: set (0 or 1) and value (0 where unset). No Options: they stand in the session's image, and any bytes there are some counters.
#[derive(Clone, Copy)]
pub struct Counters {
    pub set: [u8; 10],
    pub value: [u32; 10],
}

// A counter's number to reckon with. A cast: a usize is made from no u32 by `From`.
pub fn wide32(x: u32) -> usize
    ensures { result ≡ x }
{
    x as usize
}

// A power of ten, up to the ninth: worked out, so that no list of them takes room.
pub fn ten(w: usize) -> u32
    ensures { result ≡ ten_to w }
{
    let width = least(w, 9);
    let mut power: u32 = 1;
    for _ in 0..width {
        power *= 10;
    }
    power
}

// A counter's w digits, at the front of nine bytes; the last is written first, so that no power of ten is asked for.
pub fn digits_of(n: u32, w: usize) -> [u8; 9]
    ensures { result ≡ digits_of n w }
{
    let mut out = [0u8; 9];
    let mut rest = n;
    for left in (0..least(w, 9)).rev() {
        out[left] = (rest % 10) as u8 + b'0';
        rest /= 10;
    }
    out
}

impl Counters {
    pub fn none() -> Counters
        ensures { result ≡ none_set }
    {
        Counters {
            set: [0; 10],
            value: [0; 10],
        }
    }

    pub fn is_set(self, k: usize) -> bool
        ensures { result ≡ counter_set self k }
    {
        let set = self.set;
        tenth_byte(set, k) == 1
    }

    pub fn value_at(self, k: usize) -> u32
        ensures { result ≡ counter_value self k }
    {
        let value = self.value;
        tenth_number(value, k)
    }
}

// `?Cn,value`: the counters after it.
pub fn set_counter(d: Declared, c: Counters, n: usize, value: usize) -> Result<Counters, Refused>
    ensures { result ≡ counter_entered d c n value }
{
    let w = d.width_at(n);
    if w < 1 {
        return Err(Refused::Undeclared);
    }
    if wide32(ten(w)) <= value {
        return Err(Refused::Unfit);
    }
    let mut after = c;
    after.set[n] = 1;
    after.value[n] = value as u32;
    Ok(after)
}

// Whether counter k is sound under a form's declarations. Mostly it is unset, and then no power is worked out.
pub fn counter_sound(d: Declared, c: Counters, k: usize) -> bool
    ensures { result ≡ counter_sound d c k }
{
    let set = c.set;
    let n = c.value_at(k);
    if both(tenth_byte(set, k) == 0, n == 0) {
        return true;
    }
    let below = n < ten(d.width_at(k));
    both(c.is_set(k), both(d.counter_declared(k), below))
}
