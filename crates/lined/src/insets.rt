// A box with margins around it in a greater box, which is turned as one: where its own corner is then.
ghost use Rattle.std.specs.Prelude.{◌≡◌, ◌/◌, ◌%◌};
ghost use Rattle.lined.specs.Lined.{left_of};
ghost use Rattle.lined.specs.Insets.{brought, corner_within, margins_of};

use figures::Corner;
use ground::{capped_sum, less};
use kinds::Place;

#[derive(Clone, Copy)]
pub struct Margins {
    left: usize,
    top: usize,
    right: usize,
    bottom: usize,
}

// The margin that r turns bring to where the first one stood.
fn bring(r: usize, a: usize, b: usize, c: usize, d: usize) -> usize
    ensures { result ≡ brought (r % 4) a b c d }
{
    match r % 4 {
        0 => a,
        1 => b,
        2 => c,
        _ => d,
    }
}

impl Margins {
    // The corner of the box within, where the greater box stands at a corner.
    pub fn within(self, at: Corner) -> Corner
        ensures { result ≡ corner_within self at }
    {
        let left = bring(at.r, self.left, self.bottom, self.right, self.top);
        let top = bring(at.r, self.top, self.left, self.bottom, self.right);
        Corner {
            x: capped_sum(at.x, left),
            y: capped_sum(at.y, top),
            ..at
        }
    }
}

// "C with the smaller half left"
fn smaller_half(spare: usize) -> usize
    ensures { result ≡ spare / 2 }
{
    spare / 2
}

// The dots at the left of a part that has some to spare.
fn left_of(place: Place, spare: usize) -> usize
    ensures { result ≡ left_of place spare }
{
    match place {
        Place::Left => 0,
        Place::Centre => smaller_half(spare),
        Place::Right => spare,
    }
}

// The margins of a part that has some dots to spare, with rows above it and below it.
pub fn around(place: Place, spare: usize, top: usize, bottom: usize) -> Margins
    ensures { result ≡ margins_of place spare top bottom }
{
    let left = left_of(place, spare);
    Margins {
        left,
        top,
        right: less(spare, left),
        bottom,
    }
}
