// The interval of a polynomial, with the pair that takes it to the variable of the coefficients.
ghost use Rattle.std.specs.Prelude.{◌≡◌};
ghost use Rattle.number.specs.Interval.{change_of_basis};

use algebra::Basis;

// From a to b, with y = u·x + w. The default has +0 in every field, as a refusal has it.
#[derive(Clone, Copy, Debug, PartialEq, Default)]
pub struct Interval {
    pub a: f64,
    pub b: f64,
    pub u: f64,
    pub w: f64,
}

// Returns the interval from a to b with its change pair.
pub fn change_of_basis(basis: Basis, a: f64, b: f64) -> Interval
    ensures { result ≡ change_of_basis basis a b }
{
    match basis {
        Basis::Monomial => Interval {
            a,
            b,
            u: 1.0,
            w: 0.0,
        },
        Basis::Chebyshev => {
            let span = b - a;
            Interval {
                a,
                b,
                u: 2.0 / span,
                w: -(a + b) / span,
            }
        }
    }
}
