// What a transform does to the point and to the value that is left.
ghost use Rattle.std.specs.Prelude.{◌≡◌};

use crate::arithmetic::Arithmetic;
use number::PolynomialInputTransform;

// Returns 2x² - 1.
fn second_chebyshev<A: Arithmetic>(x: u64, arithmetic: A) -> u64
    ensures { result ≡ (A.rules arithmetic).product_less x x (A.rules arithmetic).one }
{
    arithmetic.product_less(x, x, arithmetic.one())
}

// Returns x, x² or 2x² - 1 by transform.
pub fn input_of<A: Arithmetic>(transform: PolynomialInputTransform, x: u64, arithmetic: A) -> u64
    ensures { result ≡ (A.rules arithmetic).input transform x }
{
    match transform {
        PolynomialInputTransform::Identity => x,
        PolynomialInputTransform::Square | PolynomialInputTransform::SquareTimesInput => {
            arithmetic.product(x, x)
        }
        PolynomialInputTransform::ChebyshevT2 | PolynomialInputTransform::ChebyshevT2TimesInput => {
            second_chebyshev(x, arithmetic)
        }
    }
}

// Returns the value that is left, which a TimesInput transform multiplies by x.
pub fn output_of<A: Arithmetic>(
    transform: PolynomialInputTransform,
    x: u64,
    v: u64,
    arithmetic: A,
) -> u64
    ensures { result ≡ (A.rules arithmetic).output transform x v }
{
    match transform {
        PolynomialInputTransform::Identity
        | PolynomialInputTransform::Square
        | PolynomialInputTransform::ChebyshevT2 => v,
        PolynomialInputTransform::SquareTimesInput
        | PolynomialInputTransform::ChebyshevT2TimesInput => arithmetic.product(x, v),
    }
}
