// Items, the lines that may stand in a form: R, V, C, A, B, LO, LE, LW, LS, LSE, LSW, X, GG, TD, TT.
//
// `item_answer` gives the table's rows 11 to 15 for an item after the declarations of the lines before it: recording asks it, and so does an item outside a
// form, where "data elements find nothing declared" and the session's formats serve. `run_item` draws one on the background and promises one equation
// with `item_by` (specs/Items.antt).
#![tactic(auto)]

ghost use Rattle.std.specs.Prelude.{◌≡◌, []};
ghost use Rattle.answers.specs.Answers.{answer_of};
ghost use Rattle.lent.specs.Lent.{world};
ghost use Rattle.results.specs.Result.{ran};
ghost use Rattle.item_commands.specs.Items.{verdict_answer, item_rows, based_by, item_by};

use answers::{Answer, is_taken};
use declarations::Declared;
use grammar::{Item, Origin};
use item_drawing::{Setting, Size, draw_item};
use recording::Refusal;
use results::{Done, answered, taken};
use session::{Session, sixteen_bits};

// What recording's verdict answers: [12] to [15] with their places, or taken. A function and no From: both types are those of other crates.
fn answer_of(v: Result<(), Refusal>) -> Answer
    ensures { result ≡ verdict_answer v }
{
    match v {
        Ok(()) => Answer::Taken,
        Err(Refusal::Again(p)) => Answer::Again(p),
        Err(Refusal::Undeclared(p)) => Answer::Undeclared(p),
        Err(Refusal::Past(p)) => Answer::Past(p),
        Err(Refusal::Unfit(p)) => Answer::Unfit(p),
    }
}

// [11] to [15] for an item, after the declarations d.
pub fn item_answer(directory: &[u8], line: &[u8], item: Item, d: Declared) -> Answer
    ensures { result ≡ answer_of (item_rows d directory.now line.now item []) }
{
    if recording::has_picture(directory, line, item) {
        return answer_of(recording::judge(line, item, d));
    }
    Answer::Missing
}

fn based_by(session: Session, item: Item) -> Session
    ensures { result ≡ based_by session item }
{
    match item {
        Item::Origin(o) => {
            let x = sixteen_bits(o.x);
            let y = sixteen_bits(o.y);
            session.based(x, y)
        }
        Item::Variable(_) => session,
        Item::Counter(_) => session,
        Item::Text(_) => session,
        Item::Bars(_) => session,
        Item::Box(_) => session,
        Item::Frame(_) => session,
        Item::Slant(_) => session,
        Item::Picture(_) => session,
        Item::Format(f) => {
            let before = session.formats;
            let stamp = f.stamp;
            let format = f.format;
            session.formatted(before.with(stamp, format))
        }
    }
}

// An item outside a form: drawn on the background; R, TD and TT are kept for what comes after them.
pub fn run_item<'a>(
    session: Session,
    font: &[u8],
    background: &mut [u8],
    store: &[u8],
    links: &[u16],
    directory: &[u8],
    values: &'a [u8],
    line: &'a [u8],
    item: Item,
) -> Done
    ensures { ran result (world background.new store.now links.now directory.now values.now) [] ≡ item_by font.now (world background.old store.now links.now directory.now values.now) session line.now item }
{
    let d = Declared::outside(session.formats);
    let a = item_answer(directory, line, item, d);
    if !is_taken(a) {
        return answered(a, session);
    }
    let s = Setting {
        font,
        store,
        links,
        directory,
        values,
        counters: session.counters,
        clock: session.clock,
        size: Size {
            width: session.width as usize,
            length: session.length as usize,
        },
    };
    let origin = Origin {
        x: session.x as usize,
        y: session.y as usize,
    };
    draw_item(background, s, d, origin, line, item);
    taken(based_by(session, item))
}
