// The strip along a line, and the part of it whose feet lie between the ends: in each row one run of columns, found by divisions.
ghost use Rattle.std.specs.Prelude.{◌*◌, ◌≤◌, ◌<◌};
ghost use Rattle.slanted_lines.specs.Code.{farthest, root_bound, Drawable, Reached, Crossed, Footed, CrossedFooted};

use crate::nearness::times;
use crate::{Line, Span};
use dots::DOTS_A_ROW;
use ground::{greatest, least, less};

// The first column x of a row where m x + t is s or more; where no column has it, the one after the last.
fn reached(m: usize, s: usize, t: usize) -> usize
    requires { (m ≤ farthest) × (s ≤ 16 * root_bound) }
    ensures { Reached m s t result }
{
    if 0 < m {
        return (less(s, t) + (m - 1)) / m;
    }
    if s <= t {
        return 0;
    }
    DOTS_A_ROW
}

// The columns of row y in the strip.
pub(crate) fn crossed(l: Line, r: usize, y: usize) -> Span
    requires { (Drawable l) × (r < root_bound) × (y ≤ farthest) }
    ensures { Crossed r l y result }
{
    let ahead = times(y, l.a) + times(l.b, l.d);
    let behind = times(l.a, l.e) + times(y, l.d);
    let fall = l.e - l.b;
    Span {
        from: reached(fall, behind, ahead + r),
        to: reached(fall, behind + r + 1, ahead),
    }
}

// The columns of row y whose foot lies between the ends.
fn footed(l: Line, y: usize) -> Span
    requires { (Drawable l) × (y ≤ farthest) }
    ensures { Footed l y result }
{
    let fall = l.e - l.b;
    let upper = times(l.b, fall);
    let here = times(y, fall);
    let lower = times(l.e, fall);
    if l.a < l.d {
        let m = l.d - l.a;
        return Span {
            from: reached(m, times(m, l.a) + upper + 1, here),
            to: reached(m, times(m, l.d) + lower, here),
        };
    }
    let m = l.a - l.d;
    Span {
        from: reached(m, times(m, l.d) + here + 1, lower),
        to: reached(m, times(m, l.a) + here, upper),
    }
}

// The columns of row y in the strip whose foot lies between the ends.
pub(crate) fn crossed_footed(l: Line, r: usize, y: usize) -> Span
    requires { (Drawable l) × (r < root_bound) × (y ≤ farthest) }
    ensures { CrossedFooted r l y result }
{
    let s = crossed(l, r, y);
    let f = footed(l, y);
    Span {
        from: greatest(s.from, f.from),
        to: least(s.to, f.to),
    }
}
