// Stored values: the ten fields of 34 bytes that keep the variables.
//
// "Values: 10 fields of 34 bytes: set (0 or 1), length, 32 bytes zero-filled. An unset field is all zero." `?Vn,"text"` puts a text into field n as
// padded, or is refused as undeclared (13) or unfit (17); unsetting zeroes every field. The definitions (specs/Stored.antt) say this of any bytes, and
// each function here gives exactly what they say; that entering and unsetting keep every field sound is proved in proofs/Fields.antt. How a text is
// padded and what fits stands in crate `padding`, what is declared in crate `declarations`.
#![tactic(auto)]

ghost use Rattle.std.specs.Prelude.{◌≡◌, ◌≤◌, length};
ghost use Rattle.std.proofs.lemmas.List.Edits.{sets};
ghost use Rattle.kinds.specs.Bytes.{all_in};
ghost use Rattle.padding.specs.Padding.{padded};
ghost use Rattle.stored_values.specs.Stored.{bytes_a_value, field, field_at, value_in, variable_in, stored, variable_entered, unset, is_zero, keeps, field_sound};

use declarations::{Declared, Refused};
use ground::{back, both, byte, either, fill, front, less, put, wide};
use padding::{at_back, filler_of, in_front, may_enter, value_fits};

// "10 fields of 34 bytes", "32 bytes zero-filled" of them for the value.
pub const BYTES_A_FIELD: usize = 34;

const BYTES_A_VALUE: usize = 32;

// ---- entering and unsetting

// The field that keeps a text as padded, from a place on.
fn store_text(values: &mut [u8], at: usize, side: u8, m: usize, text: &[u8])
    requires { (at ≤ 340) × ((m ≤ bytes_a_value) × (length text.now ≤ m)) }
    ensures { values.new ≡ sets values.old at (field (padded side m text.now)) }
{
    let n = text.len();
    let b = filler_of(side);
    let left = in_front(side, less(m, n));
    let right = at_back(side, less(m, n));
    let size = left + n + right;
    fill(values, at, 1, 1);
    fill(values, at + 1, 1, size as u8);
    fill(values, at + 2, left, b);
    put(values, at + 2 + left, text);
    fill(values, at + 2 + left + n, right, b);
    fill(values, at + 2 + size, less(BYTES_A_VALUE, size), 0);
}

// `?Vn,"text"`.
pub fn set_variable(d: Declared, values: &mut [u8], n: usize, text: &[u8]) -> Result<(), Refused>
    ensures { stored result values.new ≡ variable_entered d n text.now values.old }
{
    let m = d.length_at(n);
    if m < 1 {
        return Err(Refused::Undeclared);
    }
    let side = d.side_at(n);
    if !may_enter(side, m, text) {
        return Err(Refused::Unfit);
    }
    store_text(values, BYTES_A_FIELD * n, side, m, text);
    Ok(())
}

// Every variable unset.
pub fn unset_all(values: &mut [u8])
    ensures { values.new ≡ unset values.old }
{
    let n = values.len();
    fill(values, 0, n, 0);
}

// ---- the ten fields

// Field k, as a part of the values.
pub fn field_at(values: &[u8], k: usize) -> &[u8]
    ensures { result.now ≡ field_at values.now k }
{
    if k < 10 {
        front(back(values, BYTES_A_FIELD * k), BYTES_A_FIELD)
    } else {
        front(values, 0)
    }
}

fn field_value(f: &[u8]) -> &[u8]
    ensures { result.now ≡ value_in f.now }
{
    front(back(f, 2), wide(byte(f, 1)))
}

// The value of variable k, as a part of the values.
pub fn variable_at(values: &[u8], k: usize) -> &[u8]
    ensures { result.now ≡ variable_in values.now k }
{
    field_value(field_at(values, k))
}

// ---- sound

fn all_zero(s: &[u8]) -> bool
    ensures { result ≡ all_in is_zero s.now }
{
    for b in s {
        if *b != 0 {
            return false;
        }
    }
    true
}

fn keeps_value(side: u8, m: usize, f: &[u8]) -> bool
    ensures { result ≡ keeps side m f.now }
{
    let n = wide(byte(f, 1));
    let fitting = value_fits(side, m, field_value(f));
    let blank = all_zero(back(f, 2 + n));
    both(
        byte(f, 0) == 1,
        both(n <= BYTES_A_VALUE, both(fitting, blank)),
    )
}

// Whether field k is sound under a form's declarations.
pub fn field_sound(d: Declared, k: usize, f: &[u8]) -> bool
    ensures { result ≡ field_sound d k f.now }
{
    let kept = keeps_value(d.side_at(k), d.length_at(k), f);
    either(all_zero(f), both(d.variable_declared(k), kept))
}
