// An item judged as recording does, and what is declared after it.
//
// "A recorded line is checked and kept, not run": an item that is declared before is refused (12), data that names what is not declared, reaches past it
// or is unfit (13, 14, 15), and GG where its picture is not stored (11). Each function gives what the definition (specs/Judged.antt) says of any item
// after any declarations. What fit data is stands in crate `fitness`, what a whole form says in crate `forms`.
#![tactic(auto)]

ghost use Rattle.std.specs.Prelude.{◌≡◌, true, cond, is_some};
ghost use Rattle.finding.specs.Find.{titled_at};
ghost use Rattle.parts.specs.Names.{packed_of};
ghost use Rattle.grammar.specs.Named.{DECLARED-AT};
ghost use Rattle.recording.specs.Judged.{judged_data, judged, declares, declaration, has_picture};

use declarations::Declared;
use fitness::NotFit;
use grammar::Item;
use grammar::row::DECLARED_AT;
use kinds::Kind;

// Why recording refuses an item: 12 to 15 with the place in its line.
#[derive(Clone, Copy)]
pub enum Refusal {
    Again(usize),
    Undeclared(usize),
    Past(usize),
    Unfit(usize),
}

fn again(declared: bool) -> Result<(), Refusal>
    ensures { result ≡ cond declared (Err (Refusal.Again DECLARED-AT)) (Ok tt) }
{
    if declared {
        Err(Refusal::Again(DECLARED_AT))
    } else {
        Ok(())
    }
}

fn judge_data(line: &[u8], at: usize, d: Declared, kind: Kind) -> Result<(), Refusal>
    ensures { result ≡ judged_data d line.now at kind }
{
    fitness::judge(line, at, d, kind).map_err(|fault| match fault {
        NotFit::Undeclared(p) => Refusal::Undeclared(p),
        NotFit::Past(p) => Refusal::Past(p),
        NotFit::Unfit => Refusal::Unfit(at),
    })
}

// What recording answers for an item of a line, after the declarations d.
pub fn judge(line: &[u8], item: Item, d: Declared) -> Result<(), Refusal>
    ensures { result ≡ judged d line.now item }
{
    match item {
        Item::Origin(_) => Ok(()),
        Item::Variable(v) => again(d.variable_declared(v.n)),
        Item::Counter(c) => again(d.counter_declared(c.n)),
        Item::Text(t) => judge_data(line, t.at, d, Kind::Shown),
        Item::Bars(b) => {
            let kind = b.kind;
            judge_data(line, b.at, d, kind)
        }
        Item::Box(_) => Ok(()),
        Item::Frame(_) => Ok(()),
        Item::Slant(_) => Ok(()),
        Item::Picture(_) => Ok(()),
        Item::Format(_) => Ok(()),
    }
}

// An item that has a place in a form alone.
pub fn is_declaration(item: Item) -> bool
    ensures { result ≡ declaration item }
{
    match item {
        Item::Origin(_) => false,
        Item::Variable(_) => true,
        Item::Counter(_) => true,
        Item::Text(_) => false,
        Item::Bars(_) => false,
        Item::Box(_) => false,
        Item::Frame(_) => false,
        Item::Slant(_) => false,
        Item::Picture(_) => false,
        Item::Format(_) => false,
    }
}

fn has_named(directory: &[u8], line: &[u8], at: usize, length: usize) -> bool
    ensures { result ≡ is_some (titled_at directory.now true (packed_of line.now at length)) }
{
    finding::find(directory, true, parts::packed(line, at, length)).is_some()
}

// The picture that an item draws is stored; what draws none asks for none.
pub fn has_picture(directory: &[u8], line: &[u8], item: Item) -> bool
    ensures { result ≡ has_picture directory.now line.now item }
{
    match item {
        Item::Origin(_) => true,
        Item::Variable(_) => true,
        Item::Counter(_) => true,
        Item::Text(_) => true,
        Item::Bars(_) => true,
        Item::Box(_) => true,
        Item::Frame(_) => true,
        Item::Slant(_) => true,
        Item::Picture(p) => has_named(directory, line, p.at, p.length),
        Item::Format(_) => true,
    }
}

// What is declared after an item, and the formats in force.
pub fn declare(d: Declared, item: Item) -> Declared
    ensures { result ≡ declares d item }
{
    match item {
        Item::Origin(_) => d,
        Item::Variable(v) => d.with_variable(v.n, v.m, v.j),
        Item::Counter(c) => d.with_counter(c.n, c.w, c.minus, c.step),
        Item::Text(_) => d,
        Item::Bars(_) => d,
        Item::Box(_) => d,
        Item::Frame(_) => d,
        Item::Slant(_) => d,
        Item::Picture(_) => d,
        Item::Format(f) => {
            let stamp = f.stamp;
            let format = f.format;
            d.formatted(stamp, format)
        }
    }
}
