// Decides the clauses of Sound on the active form and the labels owed (paper 01): "the active form a stored one; set values fit its declarations, undeclared
// ones unset; owed plus drawn at most 65,535; labels owed only when nothing is recorded, all declared values are set and the pictures exist"; and of paper 02, §3,
// that no counter runs out within the labels owed. On any memory and any session; the active form is walked twice, for what it declares and for its pictures.
#![tactic(auto)]

ghost use Rattle.std.specs.Prelude.{◌≡◌, ◌+◌, leb, is_some};
ghost use Rattle.finding.specs.Find.{recorded};
ghost use Rattle.active_form.specs.Active.{active_bytes};
ghost use Rattle.session.specs.Session.{most_labels};
ghost use Rattle.activity_check.specs.Activity.{active_ok, owed_with, activity_sound};

use active_form::{NO_FORM, active_declared, active_pictures};
use counters::Counters;
use declarations::Declared;
use ground::both;
use session::{MOST_LABELS, Session};

// A number of the session to reckon with.
pub fn wide(x: u16) -> usize
    ensures { result ≡ x }
{
    x as usize
}

// "the active form a stored one"
fn active_ok(directory: &[u8], active: u16) -> bool
    ensures { result ≡ active_ok directory.now active }
{
    if active == NO_FORM {
        return true;
    }
    store::kind_at(directory, wide(active)) == 1
}

// Whether a form is being recorded.
fn recording(directory: &[u8]) -> bool
    ensures { result ≡ is_some (recorded directory.now) }
{
    finding::recording(directory).is_some()
}

// "labels owed only when nothing is recorded, all declared values are set and the pictures exist", and no counter runs out within them; d is what the active form
// declares.
fn owed_ok(
    owed: u16,
    active: u16,
    d: Declared,
    counters: Counters,
    store: &[u8],
    links: &[u16],
    directory: &[u8],
    values: &[u8],
) -> bool
    ensures { result ≡ owed_with d owed directory.now (active_bytes store.now links.now directory.now active) values.now counters }
{
    if owed == 0 {
        return true;
    }
    if recording(directory) {
        return false;
    }
    let set = values::all_set(d, values, counters);
    let lasting = counter_steps::lasts(d, counters, owed);
    both(
        set,
        both(lasting, active_pictures(store, links, directory, active)),
    )
}

// "owed plus drawn at most 65,535"
fn counts_ok(owed: u16, drawn: u16) -> bool
    ensures { result ≡ leb (owed + drawn) most_labels }
{
    wide(owed) + wide(drawn) <= MOST_LABELS as usize
}

// The clauses of the active form and the labels owed.
pub fn activity_sound(
    s: Session,
    store: &[u8],
    links: &[u16],
    directory: &[u8],
    values: &[u8],
) -> bool
    ensures { result ≡ activity_sound s directory.now (active_bytes store.now links.now directory.now s.active) values.now }
{
    let d = active_declared(store, links, directory, s.active);
    let counters = s.counters;
    let active = active_ok(directory, s.active);
    let fit = values::values_sound(d, values, counters);
    let count = counts_ok(s.owed, s.drawn);
    let owed = owed_ok(
        s.owed, s.active, d, counters, store, links, directory, values,
    );
    both(active, both(fit, both(count, owed)))
}
