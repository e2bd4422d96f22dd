// What answers 13 and 14 ask of a line's data.
//
// "variable or counter not declared" (13) and "a modifier reaches past the declared length" (14) are asked of each element; a counter's length is its
// width, and a variable that is not declared has length 0. Each function gives what the definition (specs/Answers.antt) says of any declarations and
// any element. How both are joined over all elements, and with 15, is left to crate `fitness`.
#![tactic(auto)]

ghost use Rattle.std.specs.Prelude.{◌≡◌, cond, ◌≤◌};
ghost use Rattle.reach.specs.Answers.{reaches_past, undeclared_by, past_by, or_else};

use declarations::Declared;
use elements::{Part, What};

// Why 13 and 14 refuse data: 13 a variable or counter is not declared, 14 a modifier reaches past the declared length, each with the place of the leftmost such element.
#[derive(Clone, Copy)]
pub enum DataFault {
    Undeclared(usize),
    Past(usize),
}

fn reaches_past(p: Part, m: usize) -> bool
    requires { m ≤ 32 }
    ensures { result ≡ reaches_past p m }
{
    match p {
        Part::Whole => false,
        Part::First(n) => m < n,
        Part::Last(n) => m < n,
        Part::Middle(p, n) => middle_past(p, n, m),
    }
}

// The sum of place and number may not fit a number: the place is held against what the number leaves.
fn middle_past(p: usize, n: usize, m: usize) -> bool
    requires { m ≤ 32 }
    ensures { result ≡ reaches_past (Part.Middle p n) m }
{
    if m + 1 < n {
        return true;
    }
    m + 1 - n < p
}

// What the element names is not declared.
pub fn undeclared_by(d: Declared, what: What) -> bool
    ensures { result ≡ undeclared_by d what }
{
    match what {
        What::Text => false,
        What::Variable(k, _) => !d.variable_declared(k),
        What::Counter(k, _) => !d.counter_declared(k),
        What::Stamped(_) => false,
    }
}

// Its modifier reaches past the declared length.
pub fn past_by(d: Declared, what: What) -> bool
    ensures { result ≡ past_by d what }
{
    match what {
        What::Text => false,
        What::Variable(k, p) => reaches_past(p, d.length_at(k)),
        What::Counter(k, p) => reaches_past(p, d.width_at(k)),
        What::Stamped(_) => false,
    }
}

// What one more element adds, which stands at a place: an element before it that reached past stays the leftmost.
pub fn first_past(before: Result<(), DataFault>, past: bool, at: usize) -> Result<(), DataFault>
    ensures { result ≡ or_else before (cond past (Err (DataFault.Past at)) (Ok tt)) }
{
    before?;
    if past {
        return Err(DataFault::Past(at));
    }
    Ok(())
}
