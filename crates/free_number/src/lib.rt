// Free room kept as a number (paper 02, §6): the session keeps the number of free portions, so that nothing counts links or adds up chains to find room.
//
// Here are the number's clause of sound (specs/Number.antt) and what each command makes of the number (specs/After.antt): FS and GM take what a size needs, a
// recorded line what its bytes need beyond the form's last portion, FK and GK give back what the erased sizes called for. Each function holds on any session
// and any directory; that the number is right after each command, and then that of the links marked free, is said in `keeps_sound` and `demands`.
#![tactic(auto)]

ghost use Rattle.std.specs.Prelude.{◌≡◌};
ghost use Rattle.store.specs.Entry.{entry};
ghost use Rattle.ground.specs.Numbers.{capped};
ghost use Rattle.free_number.specs.Number.{called_at, called_by};
ghost use Rattle.free_number.specs.After.{after_stored, after_grown, after_erased, after_erased_all};

use ground::{capped_sum, less};
use session::{Session, sixteen_bits};
use store::BYTES_AN_ENTRY;

// After FS (size 0) and GM.
pub fn after_stored(session: Session, size: usize) -> Session
    ensures { result ≡ after_stored session size }
{
    let free = session.free as usize;
    session.roomed(sixteen_bits(less(free, store::needed_for(size))))
}

// After a recorded line of so many bytes, put behind those of entry i, whose size is still the old one.
pub fn after_grown(session: Session, directory: &[u8], i: usize, more: u16) -> Session
    ensures { result ≡ after_grown session (entry directory.now i) more }
{
    let free = session.free as usize;
    let size = store::size_at(directory, i);
    let before = store::needed_for(size);
    let after = store::needed_for(size + more as usize);
    session.roomed(sixteen_bits(less(free, less(after, before))))
}

// After FK or GK of entry i, which is still there.
pub fn after_erased(session: Session, directory: &[u8], i: usize) -> Session
    ensures { result ≡ after_erased session (entry directory.now i) }
{
    let free = session.free as usize;
    session.roomed(sixteen_bits(capped_sum(free, store::many_at(directory, i))))
}

// What entry i calls for, if it is of the kind.
fn called_at(directory: &[u8], picture: bool, i: usize) -> usize
    ensures { result ≡ called_at picture (entry directory.now i) }
{
    if store::is_of_kind(picture, store::kind_at(directory, i)) {
        return store::many_at(directory, i);
    }
    0
}

fn called_by(directory: &[u8], picture: bool) -> usize
    ensures { result ≡ capped (called_by picture directory.now) }
{
    let entries = directory.len() / BYTES_AN_ENTRY;
    let mut n: usize = 0;
    for i in 0..entries {
        n = capped_sum(n, called_at(directory, picture, i));
    }
    n
}

// After `FK"*"` or `GK"*"`, whose entries are still there.
pub fn after_erased_all(session: Session, directory: &[u8], picture: bool) -> Session
    ensures { result ≡ after_erased_all session picture directory.now }
{
    let free = session.free as usize;
    session.roomed(sixteen_bits(capped_sum(free, called_by(directory, picture))))
}
