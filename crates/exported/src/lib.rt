// The exported calls by definition, and the counts that a command stores.
//
// Paper 01: "Opening, command and label calls exported on numbers and byte slices"; paper 02 adds the question whether something fits (§7) and the
// clock call (§10). specs/Face.antt says what each call leaves of the answer's number, the session's image, the counts and every lent list: the
// station's call on the session of the image, and 1 with nothing touched where the image or the counts have another length. proofs/Kept.antt: a
// refusal leaves the image byte for byte and every lent list. Crate `face` has the calls.
#![tactic(auto)]

ghost use Rattle.std.specs.Prelude.{◌≡◌};
ghost use Rattle.exported.specs.Face.{counts_stored};

// Bytes read, bytes written, and the place in the line that the answer points to.
pub const COUNTS: usize = 3;

// The three of them, at every answer; counts of another length are left as they are.
pub fn store_counts(counts: &mut [u64], read: usize, written: usize, place: usize)
    ensures { counts.new ≡ counts_stored counts.old read written place }
{
    if counts.len() == COUNTS {
        counts[0] = read as u64;
        counts[1] = written as u64;
        counts[2] = place as u64;
    }
}
