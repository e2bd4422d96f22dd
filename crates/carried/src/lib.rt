// What a line of a form leaves to the next: what is declared so far, with the formats in force, and the origin.
//
// An R in a form "replaces the earlier one" and holds for the lines after it, what a V or C declares holds for them too, and so does a format of TD or TT
// (paper 02, §10). `carry` gives what the definition (specs/Carried.antt) says is left after any item. What an item draws in between stands in crate
// `item_drawing`, a whole form in crate `form_drawing`.
#![tactic(auto)]

ghost use Rattle.std.specs.Prelude.{◌≡◌};
ghost use Rattle.carried.specs.Carried.{origin_after, carries, starts};

use declarations::Declared;
use grammar::{Item, Origin};

#[derive(Clone, Copy)]
pub struct Carried {
    pub declared: Declared,
    pub origin: Origin,
}

fn origin_after(origin: Origin, item: Item) -> Origin
    ensures { result ≡ origin_after origin item }
{
    match item {
        Item::Origin(o) => o,
        Item::Variable(_) => origin,
        Item::Counter(_) => origin,
        Item::Text(_) => origin,
        Item::Bars(_) => origin,
        Item::Box(_) => origin,
        Item::Frame(_) => origin,
        Item::Slant(_) => origin,
        Item::Picture(_) => origin,
        Item::Format(_) => origin,
    }
}

// Before the first line.
pub fn start(x: usize, y: usize) -> Carried
    ensures { result ≡ starts x y }
{
    Carried {
        declared: Declared::none(),
        origin: Origin { x, y },
    }
}

// After an item.
pub fn carry(c: Carried, item: Item) -> Carried
    ensures { result ≡ carries c item }
{
    let d = c.declared;
    let at = c.origin;
    let declared = recording::declare(d, item);
    let origin = origin_after(at, item);
    Carried { declared, origin }
}
