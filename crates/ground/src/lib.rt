// The ground floor: what every other room stands on, and nothing of the station.
//
// Two tests put together without a branch in the caller, the lesser and the greater of two numbers, sums and differences that stay in their range, and
// bytes of a list at any place: past its end 0 is read and nothing is stored. Each function takes any numbers and any bytes, and its contract is one
// equation with a definition of the language's own library. The laws on tests and on runs of stores that proofs cite stand in proofs/.
#![tactic(auto)]

mod bytes; // bytes read and stored at any place, parts of a list
mod reckoning; // sums and differences that stay in range

ghost use Rattle.std.specs.Prelude.{◌≡◌, ◌&&◌, ◌||◌};

pub use bytes::{back, byte, byte_at, fill, front, put, put_byte, wide};
pub use reckoning::{capped_sum, greatest, least, less};

// Two tests as one: both are worked out, and the caller has no branch.
pub fn both(a: bool, b: bool) -> bool
    ensures { result ≡ (a && b) }
{
    a && b
}

pub fn either(a: bool, b: bool) -> bool
    ensures { result ≡ (a || b) }
{
    a || b
}
