// Legal pictures. Paper 01, "Pictures", says by the ZSoft PCX description which bytes are a legal picture: a header of 128 bytes, then runs that give
// exactly the bytes of its lines. `is_legal` answers true exactly where the definition `legal` of specs/Rules.antt holds, for any bytes, in one pass and
// with no room for what the runs give. The numbers of the header and the steps of a run serve whoever draws, too.
// A picture is drawn by `picture`; where one is stored and what its name is, is left to others.
#![tactic(auto)]

mod body; // the runs
mod header; // the header's numbers and rules

ghost use Rattle.std.specs.Prelude.{◌≡◌};
ghost use Rattle.pcx.specs.Rules.{legal};

pub use body::{HEADER_BYTES, next_of, times_of};
pub use header::{height_of, line_bytes, width_of};

// Whether the bytes are a legal picture.
pub fn is_legal(bytes: &[u8]) -> bool
    ensures { result ≡ legal bytes.now }
{
    if !header::headed_ok(bytes) {
        return false;
    }
    let total = header::line_bytes(bytes) * header::height_of(bytes);
    body::filled_ok(bytes, total)
}
