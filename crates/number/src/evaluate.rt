// The value of a polynomial with f64 coefficients: Horner's rule for the monomial basis, Clenshaw's for the Chebyshev one.
ghost use Rattle.std.specs.Prelude.{◌≡◌};
ghost use Rattle.number.specs.Numbers.{float_ops};
ghost use Rattle.number.specs.Evaluate.{horner, clenshaw, evaluate};

use algebra::Basis;

// Horner's rule: takes y to y·x + c, from the last coefficient to the first.
fn horner(coeffs: &[f64], x: f64) -> f64
    ensures { result ≡ horner float_ops x coeffs.now }
{
    coeffs.iter().rev().fold(0.0, |y, c| y * x + *c)
}

// Clenshaw's rule: takes b1 to 2x·b1 - b2 + c and b2 to b1, from the last coefficient to the second, and ends with the first.
fn clenshaw(coeffs: &[f64], x: f64) -> f64
    ensures { result ≡ clenshaw float_ops x coeffs.now }
{
    match coeffs {
        [] => 0.0,
        // A constant is returned as it is: c + x·0 - 0 would lose the sign of -0.
        [constant] => *constant,
        [first, rest @ ..] => {
            let (b1, b2) = rest
                .iter()
                .rev()
                .fold((0.0, 0.0), |(b1, b2), c| (2.0 * x * b1 - b2 + *c, b1));
            *first + x * b1 - b2
        }
    }
}

// Evaluates the polynomial with these coefficients at x.
pub fn evaluate_coeffs(basis: Basis, coeffs: &[f64], x: f64) -> f64
    ensures { result ≡ evaluate float_ops basis coeffs.now x }
{
    match basis {
        Basis::Monomial => horner(coeffs, x),
        Basis::Chebyshev => clenshaw(coeffs, x),
    }
}
