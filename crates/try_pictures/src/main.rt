// Pictures from files, drawn and shown: '#' for a black dot, '.' for another, 64 columns and 12 rows; the drawings that this is held to are an outside
// decoder's. Then pictures damaged in one rule each: none is legal, and none draws a dot.
#![tactic(auto)]

mod rules; // rules.rt: the damaged pictures
mod shown; // shown.rt: what is written

use std::io;
use std::rt::Files;

// Two pictures on one page: where the second is white the first stays as it is.
fn together(rt: &(impl Files + Print), first: &str, second: &str) -> io::Result<()> {
    let mut page = [0u8; 912];
    shown::draw(rt, &mut page, first, 608, 12, 2, 1)?;
    shown::draw(rt, &mut page, second, 608, 12, 7, 3)?;
    shown::show(rt, &page)
}

fn main(rt: HostRuntime) -> io::Result<()> {
    shown::alone(&rt, "across.pcx", 608, 12, 4, 1)?;
    shown::alone(&rt, "literal.pcx", 608, 12, 0, 0)?;
    shown::alone(&rt, "minima.pcx", 608, 12, 5, 2)?;
    shown::alone(&rt, "minima.pcx", 20, 5, 5, 2)?;
    shown::alone(&rt, "text.pcx", 608, 12, 3, 1)?;
    shown::alone(&rt, "wide.pcx", 50, 12, 10, 3)?;
    shown::alone(&rt, "tall.pcx", 608, 11, 9, 2)?;
    together(&rt, "literal.pcx", "minima.pcx")?;
    rules::header(&rt)?;
    rules::sizes(&rt)?;
    rules::runs(&rt)?;
    rules::longest(&rt)
}
