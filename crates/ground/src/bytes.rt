// Bytes of a list at any place.
ghost use Rattle.std.specs.Prelude.{◌≡◌, ◌<◌, get_or, set, take, drop, replicate};
ghost use Rattle.std.proofs.lemmas.List.Edits.{sets};

pub fn wide(x: u8) -> usize
    ensures { result ≡ x }
{
    x as usize
}

// The byte at a place, 0 past the end.
pub fn byte(s: &[u8], at: usize) -> u8
    ensures { result ≡ get_or s.now at 0 }
{
    if at < s.len() { s[at] } else { 0 }
}

// The same as a number to reckon with.
pub fn byte_at(s: &[u8], at: usize) -> usize
    ensures { (result ≡ get_or s.now at 0) × (result < 256) }
{
    if at < s.len() { s[at] as usize } else { 0 }
}

// The list from a place on; nothing past its end.
pub fn back(s: &[u8], at: usize) -> &[u8]
    ensures { result.now ≡ drop at s.now }
{
    &s[at.min(s.len())..]
}

// The first n bytes, or what there is.
pub fn front(s: &[u8], n: usize) -> &[u8]
    ensures { result.now ≡ take n s.now }
{
    &s[..n.min(s.len())]
}

// Stores a byte, where there is a place for it.
pub fn put_byte(out: &mut [u8], at: usize, b: u8)
    ensures { out.new ≡ set out.old at b }
{
    if at < out.len() {
        out[at] = b;
    }
}

// n times b from a place on: what lies past the end is lost.
pub fn fill(out: &mut [u8], at: usize, n: usize, b: u8)
    ensures { out.new ≡ sets out.old at (replicate n b) }
{
    let from = at.min(out.len());
    let room = n.min(out.len() - from);
    out[from..from + room].fill(b);
}

// A text from a place on: what lies past the end is lost.
pub fn put(out: &mut [u8], at: usize, text: &[u8])
    ensures { out.new ≡ sets out.old at text.now }
{
    let room = text.len().min(out.len().saturating_sub(at));
    // A loop, here and where else bytes are copied: `copy_from_slice` becomes a call of memmove in the archive for C, which needs no other name for it than memcpy.
    for i in 0..room {
        out[at + i] = text[i];
    }
}
