// Runs of columns drawn in one row.
ghost use Rattle.std.specs.Prelude.{◌≡◌, ◌+◌, ◌≤◌};
ghost use Rattle.dots.specs.Dots.{drawn};
ghost use Rattle.slanted_lines.specs.Code.{farthest, Ordered, run, runs, part};

use crate::Span;
use boxes::{Area, Size, ink_box};
use dots::Ink;
use ground::greatest;

// Draws the columns of a run from `from` up to `to` of row y.
pub(crate) fn ink_run(page: &mut [u8], ink: Ink, s: Span, y: usize, from: usize, to: usize)
    requires { y ≤ farthest }
    ensures { page.new ≡ drawn ink (part from y to (y + 1) (run s)) page.old }
{
    let start = greatest(from, s.from);
    let size = Size {
        width: to,
        length: y + 1,
    };
    let area = Area {
        x0: start,
        y0: y,
        x1: s.to,
        y1: y + 1,
    };
    ink_box(page, ink, size, area);
}

// Draws the columns of three runs of row y up to `right`, each column once: the runs s and t, of which s starts first, and of u what is left.
pub(crate) fn ink_runs(page: &mut [u8], ink: Ink, s: Span, t: Span, u: Span, y: usize, right: usize)
    requires { (Ordered s t right) × (y ≤ farthest) }
    ensures { page.new ≡ drawn ink (part 0 y right (y + 1) (runs s t u)) page.old }
{
    let next = greatest(s.to, t.from);
    let end = greatest(s.to, t.to);
    ink_run(page, ink, u, y, 0, s.from);
    ink_run(page, ink, s, y, s.from, s.to);
    ink_run(page, ink, u, y, s.to, next);
    ink_run(page, ink, t, y, next, end);
    ink_run(page, ink, u, y, end, right);
}
