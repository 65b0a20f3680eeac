// The transform of a folded polynomial.
ghost use Rattle.std.specs.Prelude.{◌≡◌};
ghost use Rattle.algebra.specs.Transform.{transform_of};

use algebra::{Basis, Parity, PolynomialInputTransform};

// Returns the transform that goes with a fold.
pub fn transform_of(parity: Parity, basis: Basis) -> PolynomialInputTransform
    ensures { result ≡ transform_of parity basis }
{
    match (parity, basis) {
        (Parity::Full, _) => PolynomialInputTransform::Identity,
        (Parity::Even, Basis::Monomial) => PolynomialInputTransform::Square,
        (Parity::Even, Basis::Chebyshev) => PolynomialInputTransform::ChebyshevT2,
        (Parity::Odd, Basis::Monomial) => PolynomialInputTransform::SquareTimesInput,
        (Parity::Odd, Basis::Chebyshev) => PolynomialInputTransform::ChebyshevT2TimesInput,
    }
}
