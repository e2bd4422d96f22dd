// Sums and differences of numbers that may be anything.
ghost use Rattle.std.specs.Prelude.{◌≡◌, ◌+◌, ◌-◌, min, max};
ghost use Rattle.ground.specs.Numbers.{capped};

// The lesser of two numbers.
pub fn least(a: usize, b: usize) -> usize
    ensures { result ≡ min a b }
{
    a.min(b)
}

// The greater of two numbers.
pub fn greatest(a: usize, b: usize) -> usize
    ensures { result ≡ max a b }
{
    a.max(b)
}

// a less b, and 0 where b is more.
pub fn less(a: usize, b: usize) -> usize
    ensures { result ≡ a - b }
{
    a.saturating_sub(b)
}

// The sum of two numbers, or the greatest number there is.
pub fn capped_sum(a: usize, b: usize) -> usize
    ensures { result ≡ capped (a + b) }
{
    a.saturating_add(b)
}
