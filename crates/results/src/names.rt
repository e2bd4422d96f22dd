// The entry of a form or a picture by the name that a command gives.
ghost use Rattle.std.specs.Prelude.{◌≡◌, not, ◌&&◌, [], is_some};
ghost use Rattle.finding.specs.Find.{titled_at};
ghost use Rattle.parts.specs.Names.{packed_of};
ghost use Rattle.lent.specs.Lent.{world};
ghost use Rattle.results.specs.World.{state};
ghost use Rattle.results.specs.Named.{place_of, erased_named, erased_every};

use free_number::{after_erased, after_erased_all};
use grammar::Named;
use parts::packed;
use session::{NO_FORM, Session, sixteen_bits};

// The entry of a form, or of a picture, by the name that a command gives.
pub fn entry_of(directory: &[u8], picture: bool, line: &[u8], n: Named) -> Option<usize>
    ensures { result ≡ titled_at directory.now picture (packed_of line.now n.at n.length) }
{
    let at = n.at;
    let length = n.length;
    let title = packed(line, at, length);
    finding::find(directory, picture, title)
}

// [11]: no entry has the name, and it is not the star that means all.
pub fn is_missing(n: Named, found: Option<usize>) -> bool
    ensures { result ≡ (not n.all && not (is_some found)) }
{
    let all = n.all;
    if all { false } else { !found.is_some() }
}

// An entry's number as a session keeps it, `NO_FORM` for none.
pub fn place_of(found: Option<usize>) -> u16
    ensures { result ≡ place_of found }
{
    match found {
        Some(i) => sixteen_bits(i),
        None => NO_FORM,
    }
}

// The memory without an entry that was found, and the session with its portions free again.
pub fn erase_found(
    session: Session,
    store: &mut [u8],
    links: &mut [u16],
    directory: &mut [u8],
    found: Option<usize>,
) -> Session
    ensures { state result (world [] store.new links.new directory.new []) ≡ erased_named session (world [] store.old links.old directory.old []) found }
{
    match found {
        Some(i) => {
            let after = after_erased(session, directory, i);
            erasing::erase(store, links, directory, i);
            after
        }
        None => session,
    }
}

// The same of all forms, or of all pictures.
pub fn erase_every(
    session: Session,
    store: &mut [u8],
    links: &mut [u16],
    directory: &mut [u8],
    picture: bool,
) -> Session
    ensures { state result (world [] store.new links.new directory.new []) ≡ erased_every session (world [] store.old links.old directory.old []) picture }
{
    let after = after_erased_all(session, directory, picture);
    erasing::erase_all(store, links, directory, picture);
    after
}
