// Denominators, and coefficients divided by them.
ghost use Rattle.std.specs.Prelude.{◌≡◌, ◌≤◌, ◌%◌, eqb, nat_abs, length};
ghost use Rattle.bases.specs.Rows.{denominator};
ghost use Rattle.bases.specs.Convert.{is_whole, quotient_of};

use number::{Basis, degree_of, magnitude_of, power_of_two};

// Returns the denominator of element n's coefficients.
fn denominator(to: Basis, n: usize) -> usize
    requires { n ≤ 20 }
    ensures { result ≡ denominator to n }
{
    match to {
        Basis::Monomial => 1,
        Basis::Chebyshev => power_of_two(degree_of(n)),
    }
}

// Returns coefficient n divided by its element's denominator.
pub fn quotient(to: Basis, n: usize, z: i64) -> i64
    requires { n ≤ 20 }
    ensures { result ≡ quotient_of to n z }
{
    z / denominator(to, n) as i64
}

// Tells whether coefficient n is a multiple of its element's denominator.
fn is_multiple(to: Basis, n: usize, z: i64) -> bool
    requires { n ≤ 20 }
    ensures { result ≡ eqb (nat_abs z % denominator to n) 0 }
{
    magnitude_of(z) % denominator(to, n) == 0
}

// Tells whether each coefficient is, so that the new ones are whole.
pub fn is_whole(to: Basis, c: &[i64]) -> bool
    requires { length c.now ≤ 21 }
    ensures { result ≡ is_whole to c.now }
{
    c.iter().enumerate().all(|(n, z)| is_multiple(to, n, *z))
}
