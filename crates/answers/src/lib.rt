// The table of answers: one case a row, and its number.
//
// "The lowest number that applies is given", and 0 where none does; in the table 22 stands after 18 and before 19 (paper 02, §3), and 23 directly after 19 (§5). Each
// call's rows stand where they are decided, in the table's order; the enum here is what all of them answer with, so that no number is written twice.
// specs/Answers.antt gives each answer's number and says which row of a table is the answer.
#![tactic(auto)]

ghost use Rattle.std.specs.Prelude.{◌≡◌};
ghost use Rattle.answers.specs.Answers.{number_of, place_of, points, is_full, is_taken};

// One case a row of the table, in its order; 6, 7 and 12 to 15 with the place in the line that they point to (paper 02, §2).
#[derive(Clone, Copy)]
pub enum Answer {
    Taken,
    Lengths,
    Font,
    Unsound,
    Unended,
    Long,
    Unwritten(usize),
    Limits(usize),
    Owing,
    Misplaced,
    InUse,
    Missing,
    Again(usize),
    Undeclared(usize),
    Past(usize),
    Unfit(usize),
    Illegal,
    Misfit,
    Unset,
    RunsOut,
    FewPortions,
    NoEntry,
    Overlong,
    NoneOwed,
}

// The paper's number of an answer.
pub fn number(a: Answer) -> u8
    ensures { result ≡ number_of a }
{
    match a {
        Answer::Taken => 0,
        Answer::Lengths => 1,
        Answer::Font => 2,
        Answer::Unsound => 3,
        Answer::Unended => 4,
        Answer::Long => 5,
        Answer::Unwritten(_) => 6,
        Answer::Limits(_) => 7,
        Answer::Owing => 8,
        Answer::Misplaced => 9,
        Answer::InUse => 10,
        Answer::Missing => 11,
        Answer::Again(_) => 12,
        Answer::Undeclared(_) => 13,
        Answer::Past(_) => 14,
        Answer::Unfit(_) => 15,
        Answer::Illegal => 16,
        Answer::Misfit => 17,
        Answer::Unset => 18,
        Answer::RunsOut => 22,
        Answer::FewPortions => 19,
        Answer::NoEntry => 23,
        Answer::Overlong => 20,
        Answer::NoneOwed => 21,
    }
}

// The place in the line that an answer points to, from 0; 0 of an answer that points to none.
pub fn place(a: Answer) -> usize
    ensures { result ≡ place_of a }
{
    match a {
        Answer::Unwritten(p) => p,
        Answer::Limits(p) => p,
        Answer::Again(p) => p,
        Answer::Undeclared(p) => p,
        Answer::Past(p) => p,
        Answer::Unfit(p) => p,
        _ => 0,
    }
}

// Whether an answer points to a place in the line.
pub fn points(a: Answer) -> bool
    ensures { result ≡ points a }
{
    match number(a) {
        6 | 7 => true,
        12..=15 => true,
        _ => false,
    }
}

// Whether an answer says that portions or entries ran out.
pub fn is_full(a: Answer) -> bool
    ensures { result ≡ is_full a }
{
    match number(a) {
        19 | 23 => true,
        _ => false,
    }
}

// Whether a command or label is taken.
pub fn is_taken(a: Answer) -> bool
    ensures { result ≡ is_taken a }
{
    number(a) == 0
}
