// The pair (ct-ct, pt-ct) of a degree at a split.
ghost use Rattle.std.specs.Prelude.{◌≡◌};
ghost use Rattle.number.specs.Limits.{degree_limit};
ghost use Rattle.number.specs.inside.Between.{Between};
ghost use Rattle.counts.specs.Pair.{last_is_plain, pair_at};

use super::slices::count_slices;
use algebra::{Basis, Parity};
use needed::Slicing;
use number::top_power;

// The numbers of ct-ct and of pt-ct multiplications. Of two pairs that with fewer ct-ct is less, and of equal ct-ct that with fewer pt-ct.
#[derive(Clone, Copy, Debug, PartialEq, Eq, PartialOrd, Ord)]
pub struct Pair {
    pub ct: usize,
    pub pt: usize,
}

// Says whether the estimate takes the last combine to be plain: one multiplication then moves from ct-ct to pt-ct.
#[tactic(auto, unfolding(crate::specs::Pair::last_is_plain, number::specs::Bits::is_power_of_two))]
fn last_is_plain(degree: usize, slices: usize, last: usize) -> bool
    requires { Between 1 degree degree_limit }
    ensures { result ≡ last_is_plain degree slices last }
{
    2 <= slices && last == 0 && degree == top_power(degree)
}

// Returns the pair at a split.
pub fn estimate_op_counts(parity: Parity, basis: Basis, slicing: Slicing) -> Pair
    ensures { result ≡ pair_at parity basis slicing.degree slicing.split }
{
    let tally = count_slices(parity, slicing.degree, slicing.split);
    let powers = slicing.count_needed(parity, basis);
    let ct = tally.slices - 1 + powers;
    if last_is_plain(slicing.degree, tally.slices, tally.last) {
        Pair {
            ct: ct - 1,
            pt: tally.pt + 1,
        }
    } else {
        Pair { ct, pt: tally.pt }
    }
}
