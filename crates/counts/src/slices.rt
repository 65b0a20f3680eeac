// The slices of a degree, counted together with the plain multiplications that they take.
ghost use Rattle.std.specs.Prelude.{◌≤◌, ◌≡◌};
ghost use Rattle.number.specs.Limits.{plan_limit};
ghost use Rattle.number.specs.inside.Between.{Between};
ghost use Rattle.counts.specs.Slices.{slices_of};
ghost use Rattle.counts.specs.PlainCount.{allowed_to};
ghost use Rattle.counts.specs.inside.Tallies.{tally_of};

use algebra::Parity;
use number::{power_of_two, top_power};

// How many slices, the pt-ct multiplications of all, and the degree of the last.
#[derive(Clone, Copy)]
pub struct Tally {
    pub slices: usize,
    pub pt: usize,
    pub last: usize,
}

// Counts the powers 1 to the degree that the parity allows.
pub fn allowed_to(parity: Parity, degree: usize) -> usize
    requires { degree ≤ plan_limit }
    ensures { result ≡ allowed_to parity degree }
{
    match parity {
        Parity::Full => degree,
        Parity::Even => degree / 2,
        Parity::Odd => degree.div_ceil(2),
    }
}

// Counts the slices at a split over the low and the high part of each cut.
pub fn count_slices(parity: Parity, degree: usize, split: usize) -> Tally
    requires { (degree ≤ plan_limit) × Between 1 split 12 }
    ensures { result ≡ tally_of parity (slices_of degree split) }
{
    let base = power_of_two(split);
    if degree < base {
        let n = allowed_to(parity, degree);
        return Tally {
            slices: 1,
            pt: n,
            last: degree,
        };
    }
    let p = top_power(degree);
    let low = count_slices(parity, p - 1, split);
    let high = count_slices(parity, degree - p, split);
    Tally {
        slices: low.slices + high.slices,
        pt: low.pt + high.pt,
        last: high.last,
    }
}
