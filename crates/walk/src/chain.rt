// The heaviest chain.
ghost use Rattle.std.specs.Prelude.{◌≡◌};
ghost use Rattle.walk.specs.Chain.{chain_in, chain_of};

use crate::call::walk_lent;
use crate::plan::Head;
use crate::weights::Weights;
use number::{Refusal, SCALE_LIMIT};

// Returns the weight of the heaviest chain of a lent plan. It refuses a scale above 65,535, and a plan that the walk can't run. The point of the walk
// makes no difference.
pub fn heaviest_chain(
    head: Head,
    coefficients: &[i64],
    bounds: &[u16],
    steps: &[u16],
    input: usize,
    coeff: usize,
) -> Result<u64, Refusal>
    ensures { chain_in result ≡ chain_of head coefficients.now bounds.now steps.now input coeff }
{
    if SCALE_LIMIT < input {
        return Err(Refusal::ScaleTooWide);
    }
    if SCALE_LIMIT < coeff {
        return Err(Refusal::ScaleTooWide);
    }
    let weights = Weights {
        input: input as u64,
        coeff: coeff as u64,
    };
    walk_lent(head, 0, weights, coefficients, bounds, steps).ok_or(Refusal::Unwalkable)
}
