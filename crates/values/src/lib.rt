// The ten variables and ten counters of a form together: whether they are sound, and whether all that are declared are set.
//
// Sound asks that "set values fit its declarations, undeclared ones unset", and that labels are owed only when "all declared values are set". Both are asked of
// each number from 0 to 9: of its field among the values that are lent (crate `stored_values`) and of its counter in the session (crate `counters`). That
// entering a value, unsetting and moving keep the values sound is proved in proofs/Sound.antt.
#![tactic(auto)]

ghost use Rattle.std.specs.Prelude.{◌≡◌};
ghost use Rattle.values.specs.Sound.{sound_at, values_sound, set_at, all_set};

use counters::{Counters, counter_sound};
use declarations::Declared;
use ground::{both, byte, either};
use stored_values::{field_at, field_sound};

fn sound_at(d: Declared, values: &[u8], c: Counters, k: usize) -> bool
    ensures { result ≡ sound_at d values.now c k }
{
    both(
        field_sound(d, k, field_at(values, k)),
        counter_sound(d, c, k),
    )
}

// Whether values and counters are sound under a form's declarations.
pub fn values_sound(d: Declared, values: &[u8], c: Counters) -> bool
    ensures { result ≡ values_sound d values.now c }
{
    for k in 0..10 {
        if !sound_at(d, values, c, k) {
            return false;
        }
    }
    true
}

fn set_at(d: Declared, values: &[u8], c: Counters, k: usize) -> bool
    ensures { result ≡ set_at d values.now c k }
{
    let kept = byte(field_at(values, k), 0) == 1;
    let variable = either(!d.variable_declared(k), kept);
    both(variable, either(!d.counter_declared(k), c.is_set(k)))
}

// Whether every declared variable and counter is set.
pub fn all_set(d: Declared, values: &[u8], c: Counters) -> bool
    ensures { result ≡ all_set d values.now c }
{
    for k in 0..10 {
        if !set_at(d, values, c, k) {
            return false;
        }
    }
    true
}
