// How short and how long data can be, and whether every byte that it can show is of a kind's class.
//
// Data is fit only if it is so "for each permitted set of values". Two sets decide: every N value empty, and every value full. So a walk over the elements
// keeps the fewest and the most bytes that they can show, and whether every byte is of the class; the definition (specs/Summary.antt) says what is
// kept of any declarations and any elements, and that the walk's summary decides as it does of the whole is proved in proofs/Summing.antt. That it decides
// exactly the paper's fit data is the theorem of crate `fitness`.
#![tactic(auto)]

ghost use Rattle.std.specs.Prelude.{◌≡◌, ◌+◌, []};
ghost use Rattle.summary.specs.Summary.{part_length, fewest, takes_all, variable_good, least_of, most_of, good_of, stamp_summary, up_to, summary, summary_of, joined, decided};

use declarations::Declared;
use elements::{Element, Part, What};
use formats::Stamp;
use ground::{both, front, least, less};
use kinds::Kind;
use stamps::{stamp_good, stamp_length};

// One more than the most bytes that any kind takes: lengths are counted no further.
const TOO_LONG: usize = 129;

// How short and how long data can be, up to `TOO_LONG`, and whether every byte is of the kind's class. No Option: `joined` keeps both lengths of data that is not
// of the class too.
#[derive(Clone, Copy)]
pub struct Summary {
    pub least: usize,
    pub most: usize,
    pub good: bool,
}

fn part_length(p: Part, n: usize) -> usize
    ensures { result ≡ part_length p n }
{
    match p {
        Part::Whole => n,
        Part::First(k) => least(k, n),
        Part::Last(k) => least(k, n),
        Part::Middle(p, k) => least(k, less(n, less(p, 1))),
    }
}

fn shortest(side: u8, m: usize) -> usize
    ensures { result ≡ fewest side m }
{
    if side == b'N' { 0 } else { m }
}

fn takes_all(k: Kind) -> bool
    ensures { result ≡ takes_all k }
{
    match k {
        Kind::Shown => true,
        Kind::Code39 => false,
        Kind::Interleaved => false,
        Kind::Ean13 => false,
        Kind::Code128 => true,
    }
}

fn variable_good(k: Kind, side: u8, n: usize) -> bool
    ensures { result ≡ variable_good k side n }
{
    if takes_all(k) {
        return true;
    }
    if side == b'Z' {
        return true;
    }
    n == 0
}

fn variable_summary(d: Declared, kind: Kind, e: Element, k: usize, p: Part) -> Summary
    ensures { result ≡ summary (least_of [] d e (What.Variable k p)) (most_of [] d e (What.Variable k p)) (good_of kind [] d e (What.Variable k p)) }
{
    let m = d.length_at(k);
    let side = d.side_at(k);
    let most = part_length(p, m);
    let least = part_length(p, shortest(side, m));
    let good = variable_good(kind, side, most);
    Summary { least, most, good }
}

// A format says how long date or time are, whatever the clock is, and which bytes they can show.
fn stamp_summary(d: Declared, kind: Kind, stamp: Stamp) -> Summary
    ensures { result ≡ stamp_summary kind d stamp }
{
    let formats = d.formats;
    let format = formats.of(stamp);
    let n = stamp_length(stamp, format);
    let good = stamp_good(kind, stamp, format);
    Summary {
        least: n,
        most: n,
        good,
    }
}

// What an element can show.
pub fn summary_of(line: &[u8], d: Declared, kind: Kind, e: Element) -> Summary
    ensures { result ≡ summary_of kind line.now d e }
{
    let what = e.what;
    match what {
        What::Text => {
            let t = pieces::piece(line, front(line, 0), e);
            let n = t.len();
            let good = kinds::all_in(kind, t);
            Summary {
                least: n,
                most: n,
                good,
            }
        }
        What::Variable(k, p) => variable_summary(d, kind, e, k, p),
        What::Counter(k, p) => {
            let n = part_length(p, d.width_at(k));
            Summary {
                least: n,
                most: n,
                good: true,
            }
        }
        What::Stamped(stamp) => stamp_summary(d, kind, stamp),
    }
}

// The sum, up to `TOO_LONG`.
fn sum_up_to(a: usize, b: usize) -> usize
    ensures { result ≡ up_to (a + b) }
{
    if a < TOO_LONG {
        if b < TOO_LONG {
            return least(TOO_LONG, a + b);
        }
    }
    TOO_LONG
}

impl Summary {
    // Two elements side by side.
    pub fn join(self, t: Summary) -> Summary
        ensures { result ≡ joined self t }
    {
        let least = sum_up_to(self.least, t.least);
        let most = sum_up_to(self.most, t.most);
        let good = both(self.good, t.good);
        Summary { least, most, good }
    }

    // Whether data of this summary is fit for a kind.
    pub fn decide(self, kind: Kind) -> bool
        ensures { result ≡ decided self kind }
    {
        let short = kinds::fit_length(kind, self.least);
        let long = kinds::fit_length(kind, self.most);
        both(short, both(long, self.good))
    }
}
