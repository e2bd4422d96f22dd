// The page: Q, q, ZT and ZB, N.
//
// Paper 01: "`Qm,g` length m 1 to N, gap g 0 to 240", "`qm` width 80 to 608. Both whiten the background, as does `N`, which also ends the active form", and
// `ZT`, `ZB`. Nothing refuses them. `run_page` promises one equation with `page_by` (specs/Page.antt), for any session and any lists.
#![tactic(auto)]

ghost use Rattle.std.specs.Prelude.{◌≡◌, cond, []};
ghost use Rattle.grammar.specs.declared.PageCommand.TheVariants.{Length as Tall, Width as Wide, Turn as Turns, White};
ghost use Rattle.lent.specs.Lent.{world};
ghost use Rattle.results.specs.Result.{ran};
ghost use Rattle.page_commands.specs.Page.{page_by};

use grammar::{Length, PageCommand, Turn, Width};
use results::{Done, activate, taken};
use session::{NO_FORM, Session, sixteen_bits};

fn set_length(session: Session, l: Length, background: &mut [u8]) -> Done
    ensures { ran result (world background.new [] [] [] []) [] ≡ page_by (world background.old [] [] [] []) session (Tall l) }
{
    let m = sixteen_bits(l.m);
    let width = session.width;
    pages::whiten(background);
    taken(session.sized(width, m))
}

fn set_width(session: Session, w: Width, background: &mut [u8]) -> Done
    ensures { ran result (world background.new [] [] [] []) [] ≡ page_by (world background.old [] [] [] []) session (Wide w) }
{
    let m = sixteen_bits(w.m);
    let length = session.length;
    pages::whiten(background);
    taken(session.sized(m, length))
}

fn turn_of(half: bool) -> u8
    ensures { result ≡ cond half 1 0 }
{
    u8::from(half)
}

fn set_turn(session: Session, t: Turn) -> Done
    ensures { ran result (world [] [] [] [] []) [] ≡ page_by (world [] [] [] [] []) session (Turns t) }
{
    let half = t.half;
    taken(session.turning(turn_of(half)))
}

// N "also ends the active form".
fn whiten(session: Session, background: &mut [u8], values: &mut [u8]) -> Done
    ensures { ran result (world background.new [] [] [] values.new) [] ≡ page_by (world background.old [] [] [] values.old) session White }
{
    pages::whiten(background);
    activate(session, NO_FORM, values)
}

// A command of the page.
pub fn run_page(
    session: Session,
    command: PageCommand,
    background: &mut [u8],
    values: &mut [u8],
) -> Done
    ensures { ran result (world background.new [] [] [] values.new) [] ≡ page_by (world background.old [] [] [] values.old) session command }
{
    match command {
        PageCommand::Length(l) => set_length(session, l, background),
        PageCommand::Width(w) => set_width(session, w, background),
        PageCommand::Turn(t) => set_turn(session, t),
        PageCommand::White => whiten(session, background, values),
    }
}
