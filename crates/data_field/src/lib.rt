// Data as a field of a line.
//
// Paper 01, "Data": "One or more elements side by side", to the end of the line, and in their modifiers "n and p from 1 to 32". `data_form` says whether such a row
// stands at a place, and `data_limits` whether its modifiers are within their limits. Any line and any place is answered.
#![tactic(auto)]

ghost use Rattle.std.specs.Prelude.{◌≡◌};
ghost use Rattle.fields.specs.KindsBytes.{between};
ghost use Rattle.elements.specs.Elements.{elements};
ghost use Rattle.data_field.specs.Data.{data_at, limits, part_good, what_good};

use elements::{Part, What, element_at};
use fields::Field;

// Whether one or more elements stand from a place to the end of the line.
#[tactic(auto, using(crate::proofs::Steps::form_steps))]
pub fn data_form(line: &[u8], at: usize) -> Field
    ensures { result ≡ data_at line.now at }
{
    if line.len() <= at {
        return Err(at);
    }
    let mut i = at;
    // A while: each element says how long it is, and so where the next begins.
    while i < line.len() {
        let e = element_at(line, i)?;
        i = e.at + e.length;
    }
    Ok((0, i))
}

fn counts(n: usize) -> bool
    ensures { result ≡ between 1 32 n }
{
    (1..=32).contains(&n)
}

fn part_good(part: Part) -> bool
    ensures { result ≡ part_good part }
{
    match part {
        Part::Whole => true,
        Part::First(n) => counts(n),
        Part::Last(n) => counts(n),
        Part::Middle(p, n) => counts(p) && counts(n),
    }
}

fn what_good(what: What) -> bool
    ensures { result ≡ what_good what }
{
    match what {
        What::Text => true,
        What::Variable(_, part) => part_good(part),
        What::Counter(_, part) => part_good(part),
        What::Stamped(_) => true,
    }
}

// Holds the modifiers of the elements from a place on to their limits: the place of the first element outside is what is refused.
pub fn data_limits(line: &[u8], at: usize) -> Result<(), usize>
    ensures { result ≡ limits (elements line.now at) }
{
    let mut i = at;
    // A while: each element says how long it is, and so where the next begins.
    while i < line.len() {
        let Ok(e) = element_at(line, i) else {
            return Ok(());
        };
        let what = e.what;
        if !what_good(what) {
            return Err(e.at);
        }
        i = e.at + e.length;
    }
    Ok(())
}
