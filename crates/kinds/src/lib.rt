// What data is for, which bytes are fit for it, and what stands under bars.
//
// Paper 01 says under "Fit data" how many bytes a text or a bar symbol takes, and which. This crate has that paragraph for
// bytes that are known: `fits` answers true exactly when the definition `fit` (specs/Fit.antt) holds. What becomes of data with
// variables and counters in it stands in crate `fitness`, the bars themselves in crate `bars`, and the line under them in crate `lined`.
#![tactic(auto, unfolding(crate::specs::Bytes::between, crate::specs::Fit::in_class, crate::specs::Fit::fit_length, crate::specs::Fit::fit))]

ghost use Rattle.std.specs.Prelude.{◌≡◌, ◌&&◌, length};
ghost use Rattle.kinds.specs.Bytes.{between, all_in};
ghost use Rattle.kinds.specs.Fit.{in_class, fit_length, fit};

// "at most 128 bytes".
pub const MOST_DATA: usize = 128;

// What the data is for: text that is shown (A), or bars of type 3, 2, E30 or 1 (B).
#[derive(Clone, Copy)]
pub enum Kind {
    Shown,
    Code39,
    Interleaved,
    Ean13,
    Code128,
}

// Where the narrower of two things stands, as against the wider.
#[derive(Clone, Copy)]
pub enum Place {
    Left,
    Centre,
    Right,
}

// What stands under bars: nothing (N), or their data as a line of text (B).
#[derive(Clone, Copy)]
pub enum Under {
    Nothing,
    Line(Place),
}

// Whether b is one of the bytes lo to hi.
pub fn is_between(lo: u8, hi: u8, b: u8) -> bool
    ensures { result ≡ between lo hi b }
{
    lo <= b && b <= hi
}

fn is_39(b: u8) -> bool
    ensures { result ≡ in_class Kind.Code39 b }
{
    matches!(b, b'0'..=b'9' | b'A'..=b'Z' | b'-' | b'.' | b' ' | b'$' | b'/' | b'+' | b'%')
}

// Whether a byte may stand in data of a kind.
pub fn in_class(k: Kind, b: u8) -> bool
    ensures { result ≡ in_class k b }
{
    match k {
        Kind::Shown => true,
        Kind::Code39 => is_39(b),
        Kind::Interleaved | Kind::Ean13 => is_between(b'0', b'9', b),
        Kind::Code128 => is_between(b' ', b'~', b),
    }
}

// Whether every byte may.
pub fn all_in(k: Kind, s: &[u8]) -> bool
    ensures { result ≡ all_in (in_class k) s.now }
{
    s.iter().all(|b| in_class(k, *b))
}

fn some(n: usize) -> bool
    ensures { result ≡ fit_length Kind.Code39 n }
{
    1 <= n && n <= MOST_DATA
}

fn pairs(n: usize) -> bool
    ensures { result ≡ fit_length Kind.Interleaved n }
{
    2 <= n && n <= MOST_DATA && n % 2 == 0
}

// Whether data of a kind may have n bytes.
pub fn fit_length(k: Kind, n: usize) -> bool
    ensures { result ≡ fit_length k n }
{
    match k {
        Kind::Shown => n <= MOST_DATA,
        Kind::Code39 | Kind::Code128 => some(n),
        Kind::Interleaved => pairs(n),
        Kind::Ean13 => n == 12,
    }
}

// Whether bytes are fit for a kind.
pub fn fits(k: Kind, s: &[u8]) -> bool
    ensures { result ≡ fit k s.now }
{
    fit_length(k, s.len()) && all_in(k, s)
}
