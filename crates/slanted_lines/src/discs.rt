// The discs of a line's ends, and the whole-number roots that they and the strip along a line are found by.
ghost use Rattle.std.specs.Prelude.{◌+◌, ◌-◌, ◌*◌, ◌/◌, ◌≤◌, ◌<◌};
ghost use Rattle.slanted_lines.specs.Code.{farthest, root_bound, Drawable, Root, Around, Rooted, Disc};

use crate::nearness::{gap, squared, times};
use crate::{Line, Span};
use ground::{least, less};

// Above the root of any line: 2 to the 26th.
const ROOT_BOUND: usize = 67108864;

// Above half of any thickness, and a power of two as well.
const HALF_BOUND: usize = 64;

// The root of n is one of the `step` numbers from r on: where the half of them begins that has it.
fn raised(n: usize, r: usize, step: usize) -> usize
    requires { (Around n r step) × (r + step ≤ root_bound) }
    ensures { (Around n result (step - step / 2)) × (result + (step - step / 2) ≤ r + step) }
{
    let middle = r + step / 2;
    if middle * middle <= n {
        return middle;
    }
    r
}

// The whole-number root of n, by halving the numbers below a bound.
fn root(n: usize, bound: usize) -> usize
    requires { (n < bound * bound) × (bound ≤ root_bound) }
    ensures { (Root n result) × (result < bound) }
{
    let mut r: usize = 0;
    let mut step = bound;
    // A while: what is halved is a step's length, and there is no list to go over.
    while 1 < step {
        r = raised(n, r, step);
        step -= step / 2;
    }
    r
}

// The root of a quarter of c squared times the square of the length: between the ends, the cross product of a near dot is no more.
pub(crate) fn line_root(l: Line) -> usize
    requires { Drawable l }
    ensures { Rooted l result }
{
    root(
        times(l.c, l.c) * squared(l.a, l.b, l.d, l.e) / 4,
        ROOT_BOUND,
    )
}

// The columns of row y below `right` that lie in the disc about (a, b), c thick.
pub(crate) fn disc(c: usize, a: usize, b: usize, y: usize, right: usize) -> Span
    requires { (c ≤ 80) × (a ≤ farthest) × (b ≤ farthest) × (y ≤ farthest) }
    ensures { Disc c a b y right result }
{
    let v = 2 * gap(y, b);
    if c < v {
        return Span { from: 0, to: 0 };
    }
    let half = root((times(c, c) - times(v, v)) / 4, HALF_BOUND);
    Span {
        from: least(less(a, half), right),
        to: least(a + half + 1, right),
    }
}
