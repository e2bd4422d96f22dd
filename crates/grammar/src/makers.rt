// What the fields of a row make: a command. The rows stand in the groups of `table`; v and p are the values and the places of a row's fields, a slot for each byte of its form.
ghost use Rattle.std.specs.Prelude.{◌≡◌, List, ℕ, ◌+◌, ◌*◌, ◌≤◌, ◌<◌, get_or};
ghost use Rattle.grammar.specs.Named.{LO, FRAME, TEXT, BARS, GG, FS, VC, VARIABLE, COUNTER, LS, TS, TD};
ghost use Rattle.grammar.specs.Makers.{box_of, slant_of, format_from, step_of, side_of, starred, named_from};
ghost use Rattle.grammar.specs.Forms.{row_of, Form, in_order, command_of, Makes};

use crate::{
    Bars, Command, Counter, FormCommand, Frame, Ink, Item, Length, ListingCommand, Named, Origin,
    PageCommand, Picture, PictureCommand, Print, Rectangle, SetClock, SetCounter, SetFormat,
    SetVariable, Slant, StorePicture, Text, Turn, ValueCommand, Variable, Width, row,
};
use fields::{kind_from, under_from};
use formats::{Stamp, unpack};
use numbers::NOUGHT;

// The letters of mode and justification, as the values of their fields.
const LEFT: usize = b'L' as usize;

const RIGHT: usize = b'R' as usize;

const CENTRED: usize = b'C' as usize;

const NONE: usize = b'N' as usize;

const REVERSE: usize = b'R' as usize;

// The slots of the fields behind one letter, in their order: each field has a comma behind it.
mod one {
    pub const FIRST: usize = 1;

    pub const SECOND: usize = 3;

    pub const THIRD: usize = 5;

    pub const FOURTH: usize = 7;

    pub const FIFTH: usize = 9;

    pub const SIXTH: usize = 11;

    pub const SEVENTH: usize = 13;

    pub const EIGHTH: usize = 15;

    pub const NINTH: usize = 17;
}

// Behind two letters.
mod two {
    pub const FIRST: usize = 2;

    pub const SECOND: usize = 4;

    pub const THIRD: usize = 6;

    pub const FOURTH: usize = 8;

    pub const FIFTH: usize = 10;

    pub const SIXTH: usize = 12;
}

// Behind three letters.
mod three {
    pub const FIRST: usize = 3;
}

// The step of a counter without its sign.
fn step_of(v: usize) -> usize
    ensures { result ≡ step_of v }
{
    if v < NOUGHT { NOUGHT - v } else { v - NOUGHT }
}

fn side_of(v: usize) -> u8
    ensures { result ≡ side_of v }
{
    match v {
        LEFT => b'L',
        RIGHT => b'R',
        CENTRED => b'C',
        NONE => b'N',
        _ => b'Z',
    }
}

// Whether the text of n bytes at p is the star.
pub fn is_star(line: &[u8], p: usize, n: usize) -> bool
    ensures { result ≡ starred line.now p n }
{
    if n != 1 {
        return false;
    }
    if line.len() <= p {
        return false;
    }
    ground::byte(line, p + 1) == b'*'
}

fn named_at(line: &[u8], p: usize, n: usize) -> Named
    ensures { result ≡ named_from line.now p n }
{
    Named {
        at: p,
        length: n,
        all: is_star(line, p, n),
    }
}

fn boxed(ink: Ink, v: &[usize; 18]) -> Command
    ensures { result ≡ box_of ink (λ i. get_or (in_order (row_of LO).fields 0 v.now) i 0) }
{
    Command::Item(Item::Box(Rectangle {
        ink: ink,
        a: v[two::FIRST],
        b: v[two::SECOND],
        c: v[two::THIRD],
        d: v[two::FOURTH],
    }))
}

fn frame(v: &[usize; 18]) -> Command
    ensures { (p : List ℕ) → Makes FRAME v.now p result }
{
    Command::Item(Item::Frame(Frame {
        a: v[one::FIRST],
        b: v[one::SECOND],
        c: v[one::THIRD],
        d: v[one::FOURTH],
        e: v[one::FIFTH],
    }))
}

// The slot of the first field, and the others behind it: each field has a comma behind it.
fn slant(ink: Ink, v: &[usize; 18], first: usize) -> Command
    requires { first ≤ 3 }
    ensures { result ≡ slant_of ink (λ i. get_or v.now (first + 2 * i) 0) }
{
    Command::Item(Item::Slant(Slant {
        ink: ink,
        a: v[first],
        b: v[first + 2],
        c: v[first + 4],
        d: v[first + 6],
        e: v[first + 8],
    }))
}

fn text(v: &[usize; 18], p: &[usize; 18]) -> Command
    ensures { Makes TEXT v.now p.now result }
{
    Command::Item(Item::Text(Text {
        x: v[one::FIRST],
        y: v[one::SECOND],
        r: v[one::THIRD],
        h: v[one::FOURTH],
        v: v[one::FIFTH],
        reverse: v[one::SIXTH] == REVERSE,
        at: p[one::SEVENTH],
    }))
}

fn bars(v: &[usize; 18], p: &[usize; 18]) -> Command
    ensures { Makes BARS v.now p.now result }
{
    Command::Item(Item::Bars(Bars {
        x: v[one::FIRST],
        y: v[one::SECOND],
        r: v[one::THIRD],
        kind: kind_from(v[one::FOURTH]),
        e: v[one::FIFTH],
        f: v[one::SIXTH],
        g: v[one::SEVENTH],
        under: under_from(v[one::EIGHTH]),
        at: p[one::NINTH],
    }))
}

fn picture(v: &[usize; 18], p: &[usize; 18]) -> Command
    ensures { Makes GG v.now p.now result }
{
    Command::Item(Item::Picture(Picture {
        a: v[two::FIRST],
        b: v[two::SECOND],
        at: p[two::THIRD],
        length: v[two::THIRD],
    }))
}

fn variable(v: &[usize; 18], p: &[usize; 18]) -> Command
    ensures { Makes VARIABLE v.now p.now result }
{
    Command::Item(Item::Variable(Variable {
        n: v[one::FIRST],
        m: v[one::SECOND],
        j: side_of(v[one::THIRD]),
        at: p[one::FOURTH],
        length: v[one::FOURTH],
    }))
}

fn counter(v: &[usize; 18], p: &[usize; 18]) -> Command
    ensures { Makes COUNTER v.now p.now result }
{
    Command::Item(Item::Counter(Counter {
        n: v[one::FIRST],
        w: v[one::SECOND],
        minus: v[one::THIRD] < NOUGHT,
        step: step_of(v[one::THIRD]),
        at: p[one::FOURTH],
        length: v[one::FOURTH],
    }))
}

// The page: Q, q, R, ZT, ZB.
fn page_makes(row: usize, v: &[usize; 18]) -> Command
    requires { row < LO }
    ensures { (p : List ℕ) → Makes row v.now p result }
{
    match row {
        row::LENGTH => Command::Page(PageCommand::Length(Length {
            m: v[one::FIRST],
            g: v[one::SECOND],
        })),
        row::WIDTH => Command::Page(PageCommand::Width(Width { m: v[one::FIRST] })),
        row::ORIGIN => Command::Item(Item::Origin(Origin {
            x: v[one::FIRST],
            y: v[one::SECOND],
        })),
        row::ZT => Command::Page(PageCommand::Turn(Turn { half: false })),
        _ => Command::Page(PageCommand::Turn(Turn { half: true })),
    }
}

// What is drawn: LO, LE, LW, X, A, B, GG.
fn drawn_makes(row: usize, v: &[usize; 18], p: &[usize; 18]) -> Command
    requires { (LO ≤ row) × (row < FS) }
    ensures { Makes row v.now p.now result }
{
    match row {
        row::LO => boxed(Ink::Black, v),
        row::LE => boxed(Ink::Inverted, v),
        row::LW => boxed(Ink::White, v),
        row::FRAME => frame(v),
        row::TEXT => text(v, p),
        row::BARS => bars(v, p),
        _ => picture(v, p),
    }
}

// What is kept: forms and pictures.
fn kept_makes(line: &[u8], row: usize, v: &[usize; 18], p: &[usize; 18]) -> Command
    requires { (FS ≤ row) × (row < VC) }
    ensures { result ≡ command_of row line.now v.now p.now }
{
    let name = named_at(line, p[two::FIRST], v[two::FIRST]);
    match row {
        row::FS => Command::Forms(FormCommand::Start(name)),
        row::FE => Command::End,
        row::FR => Command::Forms(FormCommand::Retrieve(name)),
        row::FK => Command::Forms(FormCommand::Erase(name)),
        row::GK => Command::Pictures(PictureCommand::Erase(name)),
        row::FI => Command::Listing(ListingCommand::Forms),
        row::GI => Command::Listing(ListingCommand::Pictures),
        row::FP => Command::Listing(ListingCommand::Form(name)),
        _ => Command::Pictures(PictureCommand::Store(StorePicture {
            at: p[two::FIRST],
            length: v[two::FIRST],
            n: v[two::SECOND],
        })),
    }
}

// Values and labels: VC, V, C, ?V, ?C, P, N.
fn value_makes(row: usize, v: &[usize; 18], p: &[usize; 18]) -> Command
    requires { (VC ≤ row) × (row < LS) }
    ensures { Makes row v.now p.now result }
{
    match row {
        row::VC => Command::Values(ValueCommand::Clear),
        row::VARIABLE => variable(v, p),
        row::COUNTER => counter(v, p),
        row::SET_VARIABLE => Command::Values(ValueCommand::Variable(SetVariable {
            n: v[two::FIRST],
            at: p[two::SECOND],
            length: v[two::SECOND],
        })),
        row::SET_COUNTER => Command::Values(ValueCommand::Counter(SetCounter {
            n: v[two::FIRST],
            value: v[two::SECOND],
        })),
        row::PRINT => Command::Values(ValueCommand::Print(Print { k: v[one::FIRST] })),
        _ => Command::Page(PageCommand::White),
    }
}

// Slanted lines: LS, LSE, LSW.
fn slant_makes(row: usize, v: &[usize; 18]) -> Command
    requires { (LS ≤ row) × (row < TS) }
    ensures { (p : List ℕ) → Makes row v.now p result }
{
    match row {
        row::LS => slant(Ink::Black, v, two::FIRST),
        row::LSE => slant(Ink::Inverted, v, three::FIRST),
        _ => slant(Ink::White, v, three::FIRST),
    }
}

fn clock(v: &[usize; 18]) -> Command
    ensures { (p : List ℕ) → Makes TS v.now p result }
{
    Command::Clock(SetClock {
        month: v[two::FIRST],
        day: v[two::SECOND],
        year: v[two::THIRD],
        hour: v[two::FOURTH],
        minute: v[two::FIFTH],
        second: v[two::SIXTH],
    })
}

fn format(stamp: Stamp, v: &[usize; 18]) -> Command
    ensures { result ≡ format_from stamp (λ i. get_or (in_order (row_of TD).fields 0 v.now) i 0) }
{
    Command::Item(Item::Format(SetFormat {
        stamp: stamp,
        format: unpack(v[two::FIRST]),
    }))
}

// The clock and what is shown of it: TS, TD, TT. Past the last row there is none.
fn clock_makes(row: usize, v: &[usize; 18]) -> Command
    requires { TS ≤ row }
    ensures { (p : List ℕ) → Makes row v.now p result }
{
    match row {
        row::TS => clock(v),
        row::TD => format(Stamp::Date, v),
        row::TT => format(Stamp::Time, v),
        _ => Command::End,
    }
}

// The command that the slots of a row's fields make: their values vs and their places ps.
pub fn command_of(line: &[u8], row: usize, vs: &[usize; 18], ps: &[usize; 18]) -> Command
    ensures { result ≡ command_of row line.now vs.now ps.now }
{
    if row < row::LO {
        return page_makes(row, vs);
    }
    if row < row::FS {
        return drawn_makes(row, vs, ps);
    }
    if row < row::VC {
        return kept_makes(line, row, vs, ps);
    }
    if row < row::LS {
        return value_makes(row, vs, ps);
    }
    if row < row::TS {
        return slant_makes(row, vs);
    }
    clock_makes(row, vs)
}
