// The body, from byte 128 on: runs, read one byte at a time. n is the run that waits for its value, and 0 where none waits.
ghost use Rattle.std.specs.Prelude.{◌≡◌, ◌≤◌, length, drop};
ghost use Rattle.pcx.specs.Rules.{header_bytes, times, next, empty_run, filled};

// "From byte 128".
pub const HEADER_BYTES: usize = 128;

#[tactic(auto, unfolding(crate::specs::Rules::times))]
pub fn times_of(n: usize, b: u8) -> usize
    ensures { result ≡ times n b }
{
    if n == 0 {
        if b < 192 { 1 } else { 0 }
    } else {
        n
    }
}

#[tactic(auto, unfolding(crate::specs::Rules::next))]
pub fn next_of(n: usize, b: u8) -> usize
    ensures { result ≡ next n b }
{
    if n == 0 {
        if b < 192 { 0 } else { b as usize % 64 }
    } else {
        0
    }
}

#[tactic(auto, unfolding(crate::specs::Rules::empty_run))]
fn empty_run(n: usize, b: u8) -> bool
    ensures { result ≡ empty_run n b }
{
    n == 0 && b == 192
}

// One pass, in which the bytes that the runs give are counted and not kept.
pub(crate) fn filled_ok(bytes: &[u8], total: usize) -> bool
    requires { length bytes.now ≤ 32768 }
    ensures { result ≡ filled (drop header_bytes bytes.now) total }
{
    let mut n: usize = 0;
    let mut count: usize = 0;
    for i in HEADER_BYTES..bytes.len() {
        let b = bytes[i];
        if empty_run(n, b) {
            return false;
        }
        count += times_of(n, b);
        n = next_of(n, b);
    }
    n == 0 && count == total
}
