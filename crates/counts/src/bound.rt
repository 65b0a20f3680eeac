// What a split takes at least, in closed form: by it the choice passes over most splits without counting their slices and needed powers.
ghost use Rattle.std.specs.Prelude.{◌≡◌, ◌+◌};
ghost use Rattle.number.specs.Limits.{plan_limit};
ghost use Rattle.number.specs.inside.Between.{Between};
ghost use Rattle.counts.specs.PlainCount.{allowed_to};
ghost use Rattle.counts.specs.inside.Fewest.{Fewest};

use super::slices::allowed_to;
use algebra::Parity;
use needed::Slicing;
use number::{bit_len, power_of_two, top_power};

// Counts the powers from 2 to the degree that the parity allows.
#[tactic(auto, using(crate::proofs::BoundLaws::allowed_one))]
fn allowed_from_two(parity: Parity, degree: usize) -> usize
    requires { Between 1 degree plan_limit }
    ensures { result + allowed_to parity 1 ≡ allowed_to parity degree }
{
    allowed_to(parity, degree) - allowed_to(parity, 1)
}

// Returns no more ct-ct multiplications than the split takes: as many combines as the base goes into the degree, the allowed powers in the slices, and
// the powers of two from the base on. One of these may be plain at a power of two.
pub fn fewest_ct(parity: Parity, slicing: Slicing) -> usize
    ensures { Fewest parity slicing.degree slicing.split result }
{
    let Slicing { degree, split, .. } = slicing;
    let base = power_of_two(split);
    if degree < base {
        return allowed_from_two(parity, degree);
    }
    let powers = allowed_from_two(parity, base - 1) + (bit_len(degree) - split);
    let ct = (degree >> split) + powers;
    if degree == top_power(degree) {
        ct - 1
    } else {
        ct
    }
}
