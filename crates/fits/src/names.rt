// Names that may be asked for, and the entries that bear them. Both are said of the name's bytes as they are lent: no line is read here.
ghost use Rattle.std.specs.Prelude.{◌≡◌, not, eqb};
ghost use Rattle.parts.specs.Names.{capital};
ghost use Rattle.store.specs.Entry.{entry};
ghost use Rattle.fits.specs.Names.{name_wrong, bears, in_use, user_of};

use classes::{Class, run_end};
use ground::either;
use parts::folded;
use store::BYTES_AN_ENTRY;

// "1 to 8 bytes".
const MOST_NAME: usize = 8;

// Whether bytes are no legal name.
pub fn name_wrong(name: &[u8]) -> bool
    ensures { result ≡ name_wrong name.now }
{
    let legal = run_end(name, Class::Named, 0);
    either(
        name.len() == 0,
        either(MOST_NAME < name.len(), legal < name.len()),
    )
}

// Whether a byte of an entry's name is not the byte that is asked for, in capitals.
fn differs(kept: u8, asked: u8) -> bool
    ensures { result ≡ not (eqb kept (capital asked)) }
{
    kept != folded(asked)
}

// Whether entry i bears the name.
fn is_bearing(directory: &[u8], i: usize, name: &[u8]) -> bool
    ensures { result ≡ bears (entry directory.now i) name.now }
{
    if store::name_length_at(directory, i) != name.len() {
        return false;
    }
    let title = store::name_at(directory, i);
    for (k, asked) in name.iter().enumerate() {
        if differs(ground::byte(&title, k), *asked) {
            return false;
        }
    }
    true
}

// Whether entry i is of the kind, picture or form, and bears the name.
fn is_user(directory: &[u8], picture: bool, name: &[u8], i: usize) -> bool
    ensures { result ≡ in_use directory.now picture name.now i }
{
    let k = store::kind_at(directory, i);
    if store::is_of_kind(picture, k) {
        return is_bearing(directory, i, name);
    }
    false
}

// The entry of a kind, picture or form, that bears the name.
pub fn user(directory: &[u8], picture: bool, name: &[u8]) -> Option<usize>
    ensures { result ≡ user_of directory.now picture name.now }
{
    let n = directory.len() / BYTES_AN_ENTRY;
    (0..n).find(|i| is_user(directory, picture, name, *i))
}
