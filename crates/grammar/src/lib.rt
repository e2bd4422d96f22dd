// The grammar of the label station's language.
//
// Paper 01 lists the commands under "Commands". The table `forms` (specs/Forms.antt) has each command as the paper writes it, a row each, with
// its limits and with what its fields make. `line_up` answers a row's form and the letters of its bounds as the code reads them, and `command_of` the command
// that the fields of a row make. The row that a line's letters name is said in crate `heads`, how a line is held to a row in `row_fields` and `row_limits`.
#![tactic(auto)]

pub mod makers;
pub mod row;
pub mod table;

pub use dots::Ink;
use formats::{Format, Stamp};
use kinds::{Kind, Under};

// R: the origin.
#[derive(Clone, Copy)]
pub struct Origin {
    pub x: usize,
    pub y: usize,
}

// V: the variable n of at most m bytes, its justification, and its prompt. Of a prompt, a name or a text: the place of its first quote, and
// how many bytes stand between its quotes.
#[derive(Clone, Copy)]
pub struct Variable {
    pub n: usize,
    pub m: usize,
    pub j: u8,
    pub at: usize,
    pub length: usize,
}

// C: the counter n of w digits, its step, and its prompt.
#[derive(Clone, Copy)]
pub struct Counter {
    pub n: usize,
    pub w: usize,
    pub minus: bool,
    pub step: usize,
    pub at: usize,
    pub length: usize,
}

// A: a text. Its data stands from the place `at` to the end of the line.
#[derive(Clone, Copy)]
pub struct Text {
    pub x: usize,
    pub y: usize,
    pub r: usize,
    pub h: usize,
    pub v: usize,
    pub reverse: bool,
    pub at: usize,
}

// B: bars, and what stands under them; this is kept beside their type, so that the two share a word and an item is copied as quickly as it was. Their
// data stands from the place `at` to the end of the line.
#[derive(Clone, Copy)]
pub struct Bars {
    pub x: usize,
    pub y: usize,
    pub r: usize,
    pub kind: Kind,
    pub under: Under,
    pub e: usize,
    pub f: usize,
    pub g: usize,
    pub at: usize,
}

// LO, LE, LW: c by d dots from a, b on.
#[derive(Clone, Copy)]
pub struct Rectangle {
    pub ink: Ink,
    pub a: usize,
    pub b: usize,
    pub c: usize,
    pub d: usize,
}

// X: a frame between the corners a, b and d, e, of thickness c.
#[derive(Clone, Copy)]
pub struct Frame {
    pub a: usize,
    pub b: usize,
    pub c: usize,
    pub d: usize,
    pub e: usize,
}

// LS, LSE, LSW: a slanted line from a, b to d, e, of thickness c.
#[derive(Clone, Copy)]
pub struct Slant {
    pub ink: Ink,
    pub a: usize,
    pub b: usize,
    pub c: usize,
    pub d: usize,
    pub e: usize,
}

// GG: the picture of a name, at a, b.
#[derive(Clone, Copy)]
pub struct Picture {
    pub a: usize,
    pub b: usize,
    pub at: usize,
    pub length: usize,
}

// TD, TT: the format in which the date or the time of day is shown.
#[derive(Clone, Copy)]
pub struct SetFormat {
    pub stamp: Stamp,
    pub format: Format,
}

// A line that may stand in a form.
#[derive(Clone, Copy)]
pub enum Item {
    Origin(Origin),
    Variable(Variable),
    Counter(Counter),
    Text(Text),
    Bars(Bars),
    Box(Rectangle),
    Frame(Frame),
    Slant(Slant),
    Picture(Picture),
    Format(SetFormat),
}

// Q: the label's length and the gap.
#[derive(Clone, Copy)]
pub struct Length {
    pub m: usize,
    pub g: usize,
}

// q: the label's width.
#[derive(Clone, Copy)]
pub struct Width {
    pub m: usize,
}

// ZT, ZB: whether the finished page is turned by half a turn.
#[derive(Clone, Copy)]
pub struct Turn {
    pub half: bool,
}

// A name, and whether it is the star that means all.
#[derive(Clone, Copy)]
pub struct Named {
    pub at: usize,
    pub length: usize,
    pub all: bool,
}

// GM: a picture's name, and how many bytes follow the line.
#[derive(Clone, Copy)]
pub struct StorePicture {
    pub at: usize,
    pub length: usize,
    pub n: usize,
}

// ?V: the text that the variable n takes.
#[derive(Clone, Copy)]
pub struct SetVariable {
    pub n: usize,
    pub at: usize,
    pub length: usize,
}

// ?C: the number that the counter n takes.
#[derive(Clone, Copy)]
pub struct SetCounter {
    pub n: usize,
    pub value: usize,
}

// P: how many labels.
#[derive(Clone, Copy)]
pub struct Print {
    pub k: usize,
}

// TS: the date and the time that the clock takes.
#[derive(Clone, Copy)]
pub struct SetClock {
    pub month: usize,
    pub day: usize,
    pub year: usize,
    pub hour: usize,
    pub minute: usize,
    pub second: usize,
}

// Q, q, ZT and ZB, N: the page.
#[derive(Clone, Copy)]
pub enum PageCommand {
    Length(Length),
    Width(Width),
    Turn(Turn),
    White,
}

// FS, FR, FK: a form is started, retrieved or erased.
#[derive(Clone, Copy)]
pub enum FormCommand {
    Start(Named),
    Retrieve(Named),
    Erase(Named),
}

// GM, GK: a picture is stored or erased.
#[derive(Clone, Copy)]
pub enum PictureCommand {
    Store(StorePicture),
    Erase(Named),
}

// ?V, ?C, VC, P: values are entered and cleared, and labels of them are printed.
#[derive(Clone, Copy)]
pub enum ValueCommand {
    Variable(SetVariable),
    Counter(SetCounter),
    Clear,
    Print(Print),
}

// FI, GI, FP: the names of forms or of pictures are listed, or a form's lines.
#[derive(Clone, Copy)]
pub enum ListingCommand {
    Forms,
    Pictures,
    Form(Named),
}

// A command: a line that may stand in a form; FE, the end of a form; TS, the clock; or one of a group.
#[derive(Clone, Copy)]
pub enum Command {
    Item(Item),
    End,
    Page(PageCommand),
    Forms(FormCommand),
    Pictures(PictureCommand),
    Values(ValueCommand),
    Listing(ListingCommand),
    Clock(SetClock),
}
