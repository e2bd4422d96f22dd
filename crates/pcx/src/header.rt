// The header, bytes 0 to 127: the numbers that it holds, and one function for each of its rules.
ghost use Rattle.std.specs.Prelude.{◌≡◌, ◌≤◌, ◌<◌};
ghost use Rattle.pcx.specs.Rules.{header_bytes, word, width, height, line_bytes, sized, ten, version, ones, ordered, measured, lined, headed};

use ground::byte_at;

fn word_at(bytes: &[u8], at: usize) -> usize
    requires { at < header_bytes }
    ensures { (result ≡ word bytes.now at) × (result < 65536) }
{
    byte_at(bytes, at) + byte_at(bytes, at + 1) * 256
}

pub fn width_of(bytes: &[u8]) -> usize
    ensures { (result ≡ width bytes.now) × (result ≤ 65536) }
{
    word_at(bytes, 8).saturating_sub(word_at(bytes, 4)) + 1
}

pub fn height_of(bytes: &[u8]) -> usize
    ensures { (result ≡ height bytes.now) × (result ≤ 65536) }
{
    word_at(bytes, 10).saturating_sub(word_at(bytes, 6)) + 1
}

pub fn line_bytes(bytes: &[u8]) -> usize
    ensures { (result ≡ line_bytes bytes.now) × (result < 65536) }
{
    word_at(bytes, 66)
}

fn sized_ok(bytes: &[u8]) -> bool
    ensures { result ≡ sized bytes.now }
{
    129 <= bytes.len() && bytes.len() <= 32768
}

fn ten_ok(bytes: &[u8]) -> bool
    ensures { result ≡ ten bytes.now }
{
    byte_at(bytes, 0) == 10
}

fn version_ok(bytes: &[u8]) -> bool
    ensures { result ≡ version bytes.now }
{
    let v = byte_at(bytes, 1);
    v <= 5 && v != 1
}

fn ones_ok(bytes: &[u8]) -> bool
    ensures { result ≡ ones bytes.now }
{
    byte_at(bytes, 2) == 1 && byte_at(bytes, 3) == 1 && byte_at(bytes, 65) == 1
}

fn ordered_ok(bytes: &[u8]) -> bool
    ensures { result ≡ ordered bytes.now }
{
    word_at(bytes, 4) <= word_at(bytes, 8) && word_at(bytes, 6) <= word_at(bytes, 10)
}

fn measured_ok(bytes: &[u8]) -> bool
    ensures { result ≡ measured bytes.now }
{
    width_of(bytes) <= 2048 && height_of(bytes) <= 4000
}

fn lined_ok(bytes: &[u8]) -> bool
    ensures { result ≡ lined bytes.now }
{
    let line = line_bytes(bytes);
    line % 2 == 0 && line <= 256 && width_of(bytes) <= line * 8
}

#[tactic(auto, unfolding(crate::specs::Rules::headed))]
pub(crate) fn headed_ok(bytes: &[u8]) -> bool
    ensures { result ≡ headed bytes.now }
{
    sized_ok(bytes)
        && ten_ok(bytes)
        && version_ok(bytes)
        && ones_ok(bytes)
        && ordered_ok(bytes)
        && measured_ok(bytes)
        && lined_ok(bytes)
}
