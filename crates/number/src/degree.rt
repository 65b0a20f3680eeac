// The degree of a polynomial, from its number of coefficients.
ghost use Rattle.std.specs.Prelude.{◌≡◌, ◌-◌};

// Returns one less than n, and 0 for none.
pub fn degree_of(n: usize) -> usize
    ensures { result ≡ n - 1 }
{
    n.saturating_sub(1)
}
