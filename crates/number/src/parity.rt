// Whether coefficients have a parity, and the parity that they have.
ghost use Rattle.std.specs.Prelude.{◌≡◌};
ghost use Rattle.algebra.specs.Allowed.{allows};
ghost use Rattle.number.specs.Parity.{has_parity, parity_of};

use crate::coefficient::Coefficient;
use algebra::Parity;

// Returns whether the parity allows power or place j.
#[tactic(auto, unfolding(algebra::specs::Allowed::allows))]
pub fn is_allowed(parity: Parity, j: usize) -> bool
    ensures { result ≡ allows parity j }
{
    match parity {
        Parity::Full => true,
        Parity::Even => j % 2 == 0,
        Parity::Odd => j % 2 == 1,
    }
}

// Returns whether every coefficient at a place that the parity doesn't allow is zero.
pub fn has_parity<C: Coefficient>(parity: Parity, c: &[C]) -> bool
    ensures { result ≡ has_parity C.numbers parity c.now }
{
    c.iter()
        .enumerate()
        .all(|(j, x)| is_allowed(parity, j) || x.is_zero())
}

// Returns Even if the coefficients have that parity, else Odd if they have that, else Full.
#[tactic(auto, unfolding(crate::specs::Parity::parity_of))]
pub fn detect_parity<C: Coefficient>(c: &[C]) -> Parity
    ensures { result ≡ parity_of C.numbers c.now }
{
    if has_parity(Parity::Even, c) {
        Parity::Even
    } else if has_parity(Parity::Odd, c) {
        Parity::Odd
    } else {
        Parity::Full
    }
}
