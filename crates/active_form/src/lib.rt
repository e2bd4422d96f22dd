// The active form: what it declares, whether its pictures are stored, and what it draws.
//
// A session keeps the number of its active form's entry, or `NO_FORM`. Each function answers for any such number and any memory what the definition says of the
// active form's bytes (specs/Active.antt), which are none without one: then nothing is declared, no picture is asked for, and "the label is the background".
// What a form declares stands in crate `forms`, how it is drawn in crate `form_drawing`.
#![tactic(auto)]

ghost use Rattle.std.specs.Prelude.{◌≡◌};
ghost use Rattle.forms.specs.Form.{declared_of, pictures_stored};
ghost use Rattle.form_drawing.specs.ItemDrawingDraw.{setting};
ghost use Rattle.form_drawing.specs.Draw.{form_drawn};
ghost use Rattle.active_form.specs.Active.{active_bytes, active_cursor};

use calendar::Clock;
use contents::Cursor;
use counters::Counters;
use declarations::Declared;
use form_drawing::{Origin, Setting, Size, draw_form};

// The active form is an entry of the directory; this number says that there is none. No Option: it stands in the session's image, where C keeps it.
pub const NO_FORM: u16 = 65535;

// Nothing without one.
pub fn active_declared(store: &[u8], links: &[u16], directory: &[u8], active: u16) -> Declared
    ensures { result ≡ declared_of (active_bytes store.now links.now directory.now active) }
{
    if active == NO_FORM {
        return Declared::none();
    }
    forms::declared_at(store, links, directory, active as usize)
}

pub fn active_pictures(store: &[u8], links: &[u16], directory: &[u8], active: u16) -> bool
    ensures { result ≡ pictures_stored directory.now (active_bytes store.now links.now directory.now active) }
{
    if active == NO_FORM {
        return true;
    }
    forms::pictures_stored(store, links, directory, active as usize)
}

// A reader at its start; without one, a reader with nothing left.
fn reader(links: &[u16], directory: &[u8], active: u16) -> Cursor
    ensures { result ≡ active_cursor links.now directory.now active }
{
    if active == NO_FORM {
        return Cursor {
            portion: 0,
            at: 0,
            left: 0,
        };
    }
    contents::reader(links, directory, active as usize)
}

// "runs the active form from the session's origin", cut at width and length.
pub fn draw(
    page: &mut [u8],
    font: &[u8],
    store: &[u8],
    links: &[u16],
    directory: &[u8],
    values: &[u8],
    counters: Counters,
    clock: Clock,
    width: u16,
    length: u16,
    x: u16,
    y: u16,
    active: u16,
)
    ensures { page.new ≡ form_drawn (setting font.now store.now links.now directory.now values.now counters clock width length) x y (active_bytes store.now links.now directory.now active) page.old }
{
    let s = Setting {
        font,
        store,
        links,
        directory,
        values,
        counters,
        clock,
        size: Size {
            width: width as usize,
            length: length as usize,
        },
    };
    let origin = Origin {
        x: x as usize,
        y: y as usize,
    };
    draw_form(page, s, origin, reader(links, directory, active));
}
