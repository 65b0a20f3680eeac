// Magnitudes of whole coefficients.
ghost use Rattle.std.specs.Prelude.{◌≡◌, nat_abs};
ghost use Rattle.number.specs.Numbers.{whole_numbers};

use crate::limits::SUM_LIMIT;

// Returns the magnitude of x, also that of the least i64.
pub fn magnitude_of(x: i64) -> usize
    ensures { result ≡ nat_abs x }
{
    x.unsigned_abs() as usize
}

// Tells whether the magnitudes sum to at most the limit. No early return: a loop with one exit is faster.
pub fn sum_fits(c: &[i64]) -> bool
    ensures { result ≡ whole_numbers.small c.now }
{
    let left = c.iter().fold(
        SUM_LIMIT + 1,
        |left, x| left.saturating_sub(magnitude_of(*x)),
    );
    0 < left
}
