// Which kind of full (paper 02, §5): a command that makes an entry, FS or GM, is 19 where too few portions are free, and 23 where no entry is empty.
//
// "When both hold, 19 is given." A recorded line makes no entry: it asks for portions alone, in `commands`.
#![tactic(auto)]

ghost use Rattle.std.specs.Prelude.{◌≡◌, not, [], ◌∷◌};
ghost use Rattle.answers.specs.declared.Answer.TheVariants.{FewPortions, NoEntry};
ghost use Rattle.answers.specs.Answers.{row, answer_of};
ghost use Rattle.full.specs.Full.{full_rows};

use answers::Answer;
use ground::both;

// [19], then [23], by whether there are portions enough and an entry.
fn which_kind(portions: bool, entry: bool) -> Answer
    ensures { result ≡ answer_of (row FewPortions (not portions) ∷ row NoEntry (not entry) ∷ []) }
{
    if both(portions, entry) {
        return Answer::Taken;
    }
    if portions {
        return Answer::NoEntry;
    }
    Answer::FewPortions
}

// The same of a new entry of a size, with so many portions free.
pub fn full_answer(free: usize, directory: &[u8], size: usize) -> Answer
    ensures { result ≡ answer_of (full_rows free directory.now size) }
{
    let portions = store::needed_for(size) <= free;
    let entry = room::has_entry(directory);
    which_kind(portions, entry)
}
