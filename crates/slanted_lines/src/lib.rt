// Slanted lines. Paper 02 §8: `LS`, `LSE` and `LSW` draw the dots of which four times the square of the distance to a segment is at most the square of
// the line's thickness. `ink_line` promises one equation between the page at exit and the page at entry, for a page of any length and any numbers: the
// dots of the line (`slanted` of specs/Slanted.antt) are inked as far as width and length reach, and all else is as it was. So each dot is touched once,
// and the inverting ink turns it over once. Numbers out of §8's limits, with R added, draw nothing; that they are refused is the business of others.
//
// All is reckoned in whole numbers, and no dot is tried: each row of the line is put together from runs of columns. Between its ends, farther than half of
// its thickness from both, a row is one run, that of the strip along the line, found by two divisions. A row beside an end has at most three: the run of
// each end's disc, found by a root, and the run of the strip as far as the foot lies between the ends. No row is looked at that the line cannot reach.
#![tactic(auto)]

mod discs; // the discs of the ends, and whole-number roots
mod nearness; // how far dots are apart
mod rows; // the rows of a line
mod runs; // runs of columns drawn
mod spans; // the strip along a line, and where the foot lies between the ends

ghost use Rattle.std.specs.Prelude.{◌≡◌, true};
ghost use Rattle.dots.specs.Dots.{drawn, cut};
ghost use Rattle.slanted_lines.specs.Slanted.{in_limits, slanted};
ghost use Rattle.slanted_lines.specs.Code.{AsLine};

use crate::rows::ink_down;
use dots::Ink;

// A line from the dot (a, b) to the dot (d, e), c thick.
#[derive(Clone, Copy)]
struct Line {
    a: usize,
    b: usize,
    c: usize,
    d: usize,
    e: usize,
}

// A run of columns: from the one up to, not including, the other.
#[derive(Clone, Copy)]
struct Span {
    from: usize,
    to: usize,
}

#[tactic(auto, unfolding(crate::specs::Slanted::in_limits))]
fn in_limits(a: usize, b: usize, c: usize, d: usize, e: usize) -> bool
    ensures { result ≡ in_limits a b c d e }
{
    a <= 4095 && d <= 4095 && b <= 8191 && e <= 8191 && 1 <= c && c < 81
}

// The line with its upper end first: it is the same from either end.
fn downward(a: usize, b: usize, c: usize, d: usize, e: usize) -> Line
    requires { in_limits a b c d e ≡ true }
    ensures { AsLine a b c d e result }
{
    if e < b {
        return Line {
            a: d,
            b: e,
            c,
            d: a,
            e: b,
        };
    }
    Line { a, b, c, d, e }
}

// LS, LSW, LSE: draws the line from (a, b) to (d, e), c thick, in an ink, cut at width and length.
pub fn ink_line(
    page: &mut [u8],
    ink: Ink,
    width: usize,
    length: usize,
    a: usize,
    b: usize,
    c: usize,
    d: usize,
    e: usize,
)
    ensures { page.new ≡ drawn ink (cut width length (slanted a b c d e)) page.old }
{
    if in_limits(a, b, c, d, e) {
        let l = downward(a, b, c, d, e);
        ink_down(page, ink, width, length, l);
    }
}
