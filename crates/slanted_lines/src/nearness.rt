// How far dots are apart, as specs/Slanted.antt says it: small products, so that nothing wraps.
ghost use Rattle.std.specs.Prelude.{◌≡◌, ◌*◌, ◌≤◌, max};
ghost use Rattle.slanted_lines.specs.Slanted as Slanted;
ghost use Rattle.slanted_lines.specs.Code.{farthest};

// How far two numbers are apart.
pub(crate) fn gap(m: usize, n: usize) -> usize
    ensures { (result ≡ Slanted.gap m n) × (result ≤ max m n) }
{
    m.abs_diff(n)
}

// The product of two coordinates.
pub(crate) fn times(m: usize, n: usize) -> usize
    requires { (m ≤ farthest) × (n ≤ farthest) }
    ensures { (result ≡ m * n) × (result ≤ farthest * farthest) }
{
    m * n
}

// The square of the distance of two dots.
pub(crate) fn squared(x: usize, y: usize, a: usize, b: usize) -> usize
    requires { (x ≤ farthest) × (y ≤ farthest) × (a ≤ farthest) × (b ≤ farthest) }
    ensures { (result ≡ Slanted.squared x y a b) × (result ≤ 2 * (farthest * farthest)) }
{
    let u = gap(x, a);
    let v = gap(y, b);
    times(u, u) + times(v, v)
}
