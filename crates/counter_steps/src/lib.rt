// The steps of counters: whether they have numbers for so many labels, and their move after each label.
//
// Paper 02, §3: "P is refused when, for some counter of the active form, its value plus (k-1) times its step falls outside 0 to 10^w-1. If the move after the
// last label leaves that range, the counter becomes unset." `lasts` asks the first of all ten counters, `move_all` does the second; both of any declarations and
// any numbers, and nothing wraps. The definitions stand in specs/Steps.antt; that a job which lasts shows the next number on each label, and no number of a
// counter twice, is proved of them in proofs/Job.antt and proofs/Times.antt. Who asks when is left to `P` and to sound.
#![tactic(auto)]

ghost use Rattle.std.specs.Prelude.{◌≡◌, ◌-◌, ◌*◌};
ghost use Rattle.counter_steps.specs.Steps.{inside, counts, inside_at, lasts_at, lasts, stepped_at, moved_at, moved_all};

use counters::{Counters, ten, wide32};
use declarations::{Declared, tenth_byte};
use ground::{both, either, less};

// One counter: set (0 or 1) and value (0 where unset). No Option: `moved_all` leaves a counter that does not count as it stands, whatever its flag is.
#[derive(Clone, Copy)]
pub struct Counter {
    pub set: u8,
    pub value: u32,
}

// How far so many steps go.
fn far(steps: u16, step: u32) -> usize
    ensures { result ≡ steps * step }
{
    steps as usize * wide32(step)
}

// Whether a counter of w digits at n, gone so far, is in 0 to 10^w-1.
fn is_inside(w: usize, minus: bool, far: usize, n: u32) -> bool
    ensures { result ≡ inside w minus far n }
{
    let most = wide32(ten(w));
    let from = wide32(n);
    if minus {
        return both(far <= from, less(from, far) < most);
    }
    far < less(most, from)
}

// Whether counter k is declared and set.
fn counts_at(d: Declared, c: Counters, k: usize) -> bool
    ensures { result ≡ counts d c k }
{
    both(d.counter_declared(k), c.is_set(k))
}

// Whether counter k is inside so many steps on.
fn inside_at(d: Declared, c: Counters, k: usize, steps: u16) -> bool
    ensures { result ≡ inside_at d c k steps }
{
    let way = far(steps, d.step_at(k));
    is_inside(d.width_at(k), d.minus_at(k), way, c.value_at(k))
}

// The steps from the first of n labels to the last.
fn steps_between(n: u16) -> u16
    ensures { result ≡ n - 1 }
{
    if 0 < n { n - 1 } else { 0 }
}

// Whether counter k lasts for n labels.
fn lasts_at(d: Declared, c: Counters, n: u16, k: usize) -> bool
    ensures { result ≡ lasts_at d c n k }
{
    let in_range = inside_at(d, c, k, steps_between(n));
    either(!counts_at(d, c, k), in_range)
}

// Whether no counter runs out within n labels.
pub fn lasts(d: Declared, c: Counters, n: u16) -> bool
    ensures { result ≡ lasts d c n }
{
    for k in 0..10 {
        if !lasts_at(d, c, n, k) {
            return false;
        }
    }
    true
}

// A counter that counts, one step on.
fn stepped(d: Declared, c: Counters, k: usize) -> Counter
    ensures { result ≡ stepped_at d c k }
{
    let n = c.value_at(k);
    if inside_at(d, c, k, 1) {
        if d.minus_at(k) {
            return Counter {
                set: 1,
                value: n - d.step_at(k),
            };
        }
        return Counter {
            set: 1,
            value: n + d.step_at(k),
        };
    }
    Counter { set: 0, value: 0 }
}

// Counter k after a label.
fn moved_at(d: Declared, c: Counters, k: usize) -> Counter
    ensures { result ≡ moved_at d c k }
{
    if counts_at(d, c, k) {
        return stepped(d, c, k);
    }
    let set = c.set;
    Counter {
        set: tenth_byte(set, k),
        value: c.value_at(k),
    }
}

// All ten after a label.
pub fn move_all(d: Declared, c: Counters) -> Counters
    ensures { result ≡ moved_all d c }
{
    let mut set = c.set;
    let mut value = c.value;
    for i in 0..10 {
        let moved = moved_at(d, c, i);
        set[i] = moved.set;
        value[i] = moved.value;
    }
    Counters { set, value }
}
