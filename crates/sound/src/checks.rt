// What every read and label call checks first: [1] the lengths (wrong, or not), [2] the font, [3] sound.
ghost use Rattle.std.specs.Prelude.{◌≡◌, []};
ghost use Rattle.answers.specs.Answers.{answer_of};
ghost use Rattle.lent.specs.Lent.{world};
ghost use Rattle.sound.specs.Entry.{entry_rows};

use crate::is_sound;
use answers::Answer;
use session::Session;

pub fn entry_answer(
    wrong: bool,
    session: Session,
    font: &[u8],
    background: &[u8],
    store: &[u8],
    links: &[u16],
    directory: &[u8],
    values: &[u8],
) -> Answer
    ensures { result ≡ answer_of (entry_rows wrong font.now session (world background.now store.now links.now directory.now values.now) []) }
{
    if wrong {
        return Answer::Lengths;
    }
    if !font::is_legal(font) {
        return Answer::Font;
    }
    if !is_sound(session, background, store, links, directory, values) {
        return Answer::Unsound;
    }
    Answer::Taken
}
