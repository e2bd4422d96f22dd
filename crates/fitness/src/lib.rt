// Whether a line's data may stand under a form's declarations.
//
// Paper 01 refuses data that names what is not declared (13), whose modifier reaches past the declared length (14), or that is unfit (15):
// "for each permitted set of values: at most 128 bytes", and the class and number of bytes that the kind takes. `judge` gives the lowest of
// them in one walk over the elements. It decides 15 from a summary (crate `summary`); the main theorem (proofs/Always.antt) is that the summary refuses exactly
// when some permitted values make the data unfit, and it names those values. What 13 and 14 ask of an element stands
// in crate `reach`, what data shows of values in crate `pieces`.
#![tactic(auto)]

ghost use Rattle.std.specs.Prelude.{◌≡◌};
ghost use Rattle.elements.specs.Elements.{elements};
ghost use Rattle.fitness.specs.Judged.{of_fault, with_fit, data_judged};

use declarations::Declared;
use kinds::Kind;
use reach::{DataFault, first_past, past_by, undeclared_by};
use summary::{Summary, summary_of};

// Why data may not stand: 13 and 14 as in `DataFault`; 15 some permitted values make it unfit.
#[derive(Clone, Copy)]
pub enum NotFit {
    Undeclared(usize),
    Past(usize),
    Unfit,
}

impl From<DataFault> for NotFit {
    ghost from_gives = { λ fault r. r ≡ of_fault fault };

    fn from(fault: DataFault) -> NotFit {
        match fault {
            DataFault::Undeclared(p) => NotFit::Undeclared(p),
            DataFault::Past(p) => NotFit::Past(p),
        }
    }
}

fn with_fit(answer: Result<(), DataFault>, fit: bool) -> Result<(), NotFit>
    ensures { result ≡ with_fit answer fit }
{
    answer?;
    if !fit {
        return Err(NotFit::Unfit);
    }
    Ok(())
}

// The lowest of 13, 14 and 15 that applies to the data from a place of a line on, where it stands for a kind.
pub fn judge(line: &[u8], at: usize, d: Declared, kind: Kind) -> Result<(), NotFit>
    ensures { result ≡ data_judged d line.now (elements line.now at) kind }
{
    let mut past = Ok(());
    let mut s = Summary {
        least: 0,
        most: 0,
        good: true,
    };
    let mut i = at;
    // A while: where the next element begins is known once this one is read.
    while i < line.len() {
        let Ok(e) = elements::element_at(line, i) else {
            return with_fit(past, s.decide(kind));
        };
        let what = e.what;
        if undeclared_by(d, what) {
            return Err(NotFit::Undeclared(e.at));
        }
        past = first_past(past, past_by(d, what), e.at);
        s = s.join(summary_of(line, d, kind, e));
        i = e.at + e.length;
    }
    with_fit(past, s.decide(kind))
}
