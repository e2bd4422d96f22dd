// Listings: what `FI` and `GI` write to the output.
//
// Paper 01: "A listing line is size, comma, quoted name", in directory order. `listing` (specs/Listing.antt) is those lines for the entries of one
// kind, 1 for forms and 2 for pictures. `listing_length` tells how many bytes they are, so that a caller can refuse an output that is too short
// before anything is written, and `list` writes them to its front; what lies past the end is not stored. Which command lists what, and what is
// answered, is left to others.
#![tactic(auto)]

ghost use Rattle.std.specs.Prelude.{◌≡◌, ◌+◌, ◌/◌, ◌≤◌, ◌<◌, length};
ghost use Rattle.std.proofs.lemmas.List.Edits.{sets};
ghost use Rattle.store.specs.Entry.{entries, entry};
ghost use Rattle.listing.specs.Listing.{comma_name, listing_line, line_at, listing};

use store::BYTES_AN_ENTRY;

// What follows the size of entry i in its line: comma, the name between quotes, LF; the place after it.
fn put_name(directory: &[u8], i: usize, line: &mut [u8], at: usize) -> usize
    requires { (i < entries directory.now) × (at ≤ 32) }
    ensures { (result ≡ at + length (comma_name (entry directory.now i))) × (line.new ≡ sets line.old at (comma_name (entry directory.now i))) }
{
    let name = store::name_at(directory, i);
    let n = store::name_length_at(directory, i);
    let end = at + 2 + ground::least(n, 8);
    ground::put_byte(line, at, b',');
    ground::put_byte(line, at + 1, b'"');
    ground::put(line, at + 2, ground::front(&name, n));
    ground::put_byte(line, end, b'"');
    ground::put_byte(line, end + 1, b'\n');
    end + 2
}

// The line of entry i, at the front of a buffer; how long it is.
fn line_into(directory: &[u8], i: usize, line: &mut [u8]) -> usize
    requires { (i < entries directory.now) × (length line.old ≡ 32) }
    ensures { (result ≡ length (listing_line (entry directory.now i))) × (line.new ≡ sets line.old 0 (listing_line (entry directory.now i))) }
{
    let n = writing::put_decimal(store::size_at(directory, i), line, 0);
    put_name(directory, i, line, n)
}

// The line of entry i from a place of the output on, by way of a buffer; the place after it.
fn put_line(directory: &[u8], i: usize, line: &mut [u8], output: &mut [u8], at: usize) -> usize
    requires { (i < entries directory.now) × ((length line.old ≡ 32) × (at < 18446744073709551584)) }
    ensures { (result ≡ at + length (listing_line (entry directory.now i))) × (output.new ≡ sets output.old at (listing_line (entry directory.now i))) }
{
    let n = line_into(directory, i, line);
    ground::put(output, at, ground::front(line, n));
    at + n
}

// The same if the entry is of kind k; else nothing is written.
fn list_entry(directory: &[u8], k: usize, i: usize, output: &mut [u8], at: usize) -> usize
    requires { (i < entries directory.now) × (at < 18446744073709551584) }
    ensures { (result ≡ at + length (line_at directory.now k i)) × (output.new ≡ sets output.old at (line_at directory.now k i)) }
{
    if store::kind_at(directory, i) == k {
        let mut line = [0u8; 32];
        return put_line(directory, i, &mut line, output, at);
    }
    at
}

// Writes the lines of the entries of kind k to the front of the output; how many bytes they are.
fn lines(directory: &[u8], k: usize, output: &mut [u8]) -> usize
    ensures { (result ≡ length (listing directory.now k)) × (output.new ≡ sets output.old 0 (listing directory.now k)) }
{
    let n = directory.len() / BYTES_AN_ENTRY;
    let mut at: usize = 0;
    for i in 0..n {
        at = list_entry(directory, k, i, output, at);
    }
    at
}

// How long the listing of the entries of kind k is.
pub fn listing_length(directory: &[u8], k: usize) -> usize
    ensures { result ≡ length (listing directory.now k) }
{
    let mut nowhere = [0u8; 1];
    lines(directory, k, &mut nowhere)
}

// Writes the listing of the entries of kind k to the front of the output.
pub fn list(directory: &[u8], k: usize, output: &mut [u8])
    ensures { output.new ≡ sets output.old 0 (listing directory.now k) }
{
    lines(directory, k, output);
}
