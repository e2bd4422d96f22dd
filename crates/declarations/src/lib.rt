// What a form declares: ten variables and ten counters, and in which formats it shows date and time.
//
// `Vn,m,j` declares variable n with a length m of 1 to 32 and a justification j, `Cn,w,s` counter n with a width w of 1 to 9 and a step s. A length or
// width of 0 is none declared. The definitions (specs/Declarations.antt) say what is declared of any ten numbers, and each method here gives exactly
// that. `TD` and `TT` say a format, which holds for the lines after it as a declaration does (paper 02, §10), so it is kept beside them. What is entered for
// a variable or a counter is held against its declaration: taken, not declared (13), or unfit (17). How the values are kept stands in crates `stored_values`
// and `counters`.
#![tactic(auto)]

ghost use Rattle.std.specs.Prelude.{◌≡◌};
ghost use Rattle.declarations.specs.Declarations.{tenth, length_at, side_at, width_at, minus_at, step_at, variable_declared, counter_declared, nothing, outside_forms, with_variable, with_counter, formatted};

use formats::{Format, Formats, Stamp};
use ground::{least, wide};

// No list of Options: the definitions say what is declared of any ten numbers, `length_at` and `width_at` of numbers above 32 and 9 too.
#[derive(Clone, Copy)]
pub struct Declared {
    pub lengths: [u8; 10],
    pub sides: [u8; 10],
    pub widths: [u8; 10],
    pub minus: [u8; 10],
    pub steps: [u32; 10],
    pub formats: Formats,
}

// Why a value that is entered is refused: [13] not declared; [17] it does not fit.
#[derive(Clone, Copy)]
pub enum Refused {
    Undeclared,
    Unfit,
}

// Of ten numbers the one at k, 0 at another place.
pub fn tenth_byte(l: [u8; 10], k: usize) -> u8
    ensures { result ≡ tenth l k }
{
    if k < 10 { l[k] } else { 0 }
}

pub fn tenth_number(l: [u32; 10], k: usize) -> u32
    ensures { result ≡ tenth l k }
{
    if k < 10 { l[k] } else { 0 }
}

impl Declared {
    pub fn none() -> Declared
        ensures { result ≡ nothing }
    {
        Declared {
            lengths: [0; 10],
            sides: [0; 10],
            widths: [0; 10],
            minus: [0; 10],
            steps: [0; 10],
            formats: Formats::examples(),
        }
    }

    // Outside a form nothing is declared, and the session's formats serve.
    pub fn outside(formats: Formats) -> Declared
        ensures { result ≡ outside_forms formats }
    {
        Declared {
            formats,
            ..Declared::none()
        }
    }

    pub fn length_at(self, k: usize) -> usize
        ensures { result ≡ length_at self k }
    {
        let lengths = self.lengths;
        least(wide(tenth_byte(lengths, k)), 32)
    }

    pub fn side_at(self, k: usize) -> u8
        ensures { result ≡ side_at self k }
    {
        let sides = self.sides;
        tenth_byte(sides, k)
    }

    pub fn width_at(self, k: usize) -> usize
        ensures { result ≡ width_at self k }
    {
        let widths = self.widths;
        least(wide(tenth_byte(widths, k)), 9)
    }

    pub fn minus_at(self, k: usize) -> bool
        ensures { result ≡ minus_at self k }
    {
        let minus = self.minus;
        tenth_byte(minus, k) == 1
    }

    pub fn step_at(self, k: usize) -> u32
        ensures { result ≡ step_at self k }
    {
        let steps = self.steps;
        tenth_number(steps, k)
    }

    pub fn variable_declared(self, k: usize) -> bool
        ensures { result ≡ variable_declared self k }
    {
        0 < self.length_at(k)
    }

    pub fn counter_declared(self, k: usize) -> bool
        ensures { result ≡ counter_declared self k }
    {
        0 < self.width_at(k)
    }

    // Variable n with length m and justification j.
    pub fn with_variable(self, n: usize, m: usize, j: u8) -> Declared
        ensures { result ≡ with_variable self n m j }
    {
        let mut d = self;
        if n < 10 {
            d.lengths[n] = least(m, 32) as u8;
            d.sides[n] = j;
        }
        d
    }

    // Counter n with width w, and the step's sign and size.
    pub fn with_counter(self, n: usize, w: usize, minus: bool, step: usize) -> Declared
        ensures { result ≡ with_counter self n w minus step }
    {
        let mut d = self;
        if n < 10 {
            d.widths[n] = least(w, 9) as u8;
            d.minus[n] = u8::from(minus);
            d.steps[n] = least(step, 99999) as u32;
        }
        d
    }

    // A format of the date or of the time, for what comes after it.
    pub fn formatted(self, stamp: Stamp, format: Format) -> Declared
        ensures { result ≡ formatted self stamp format }
    {
        Declared {
            formats: self.formats.with(stamp, format),
            ..self
        }
    }
}
