// A form drawn on a label, line after line.
//
// "A label call .. runs the active form from the session's origin": each line draws its item, and what is declared so far, the formats and the origin go from
// each line to the next (crate `carried`). An R in the form "replaces the earlier one", and "holds for that label only": all end with the label. `draw_form`
// reads the lines ahead of a reader where they lie in the store and leaves the page that the definition (specs/Draw.antt) says of these bytes, on any memory.
// What one item draws stands in crate `item_drawing`.
#![tactic(auto)]

ghost use Rattle.std.specs.Prelude.{◌≡◌, ◌<◌};
ghost use Rattle.contents.specs.Content.{ahead};
ghost use Rattle.kept_line.specs.Held.{item_in};
ghost use Rattle.item_drawing.specs.Draw.{setting};
ghost use Rattle.form_drawing.specs.Draw.{form_drawn};
ghost use Rattle.form_drawing.specs.Label.{item_or, run_drawn};

use carried::{Carried, carry};
use contents::Cursor;
use form_lines::next_line;
use grammar::Item;
pub use grammar::Origin;
use ground::front;
use item_drawing::draw_item;
pub use item_drawing::{Setting, Size};
use kept_line::stored_item;

// Where a label under way stands: a reader, and what the lines so far leave.
#[derive(Clone, Copy)]
pub struct Run {
    pub place: Cursor,
    pub carried: Carried,
}

// A line that holds nothing is as an R that names the origin again: it draws nothing and leaves all as it was.
fn line_item(line: &[u8], origin: Origin) -> Item
    ensures { result ≡ item_or origin (item_in line.now) }
{
    stored_item(line).unwrap_or(Item::Origin(origin))
}

fn draw_next(page: &mut [u8], s: Setting, w: Run) -> Run
    requires { 0 < w.place.left }
    ensures { (run_drawn (setting s.entry.font.now s.entry.store.now s.entry.links.now s.entry.directory.now s.entry.values.now s.entry.counters s.entry.clock s.entry.size.width s.entry.size.length) result page.new ≡ run_drawn (setting s.entry.font.now s.entry.store.now s.entry.links.now s.entry.directory.now s.entry.values.now s.entry.counters s.entry.clock s.entry.size.width s.entry.size.length) w page.old) × (result.place.left < w.place.left) }
{
    let mut buffer = [0u8; 256];
    let c = w.carried;
    let next = next_line(s.store, s.links, w.place, &mut buffer);
    let line = front(&buffer, next.n);
    let item = line_item(line, c.origin);
    draw_item(page, s, c.declared, c.origin, line, item);
    Run {
        place: next.place,
        carried: carry(c, item),
    }
}

// Draws the form ahead of a reader from an origin, cut at width and length.
pub fn draw_form(page: &mut [u8], s: Setting, origin: Origin, place: Cursor)
    ensures { page.new ≡ form_drawn (setting s.entry.font.now s.entry.store.now s.entry.links.now s.entry.directory.now s.entry.values.now s.entry.counters s.entry.clock s.entry.size.width s.entry.size.length) origin.x origin.y (ahead s.entry.store.now s.entry.links.now place) page.old }
{
    let mut w = Run {
        place,
        carried: carried::start(origin.x, origin.y),
    };
    // A while: the reader goes along a chain of links, and there is no list to go over.
    while 0 < w.place.left {
        w = draw_next(page, s, w);
    }
}
