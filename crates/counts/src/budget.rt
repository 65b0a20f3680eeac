// The largest degree whose bits are within a budget.
ghost use Rattle.std.specs.Prelude.{◌≡◌, ◌≤◌, ◌<◌, MatchOption};
ghost use Rattle.number.specs.Limits.{degree_limit, plan_limit, scale_limit};
ghost use Rattle.number.specs.inside.Between.{Between};
ghost use Rattle.counts.specs.LargestDegree.{greatest_within};
ghost use Rattle.counts.specs.Calls.{largest_in, largest_call};
ghost use Rattle.counts.specs.inside.SameBits.{SameDownTo};

use super::choice::SplitStrategy;
use super::consumed::bits_from_one;
use super::depth::depth_threshold;
use number::{PLAN_LIMIT, Refusal, SCALE_LIMIT, bit_len, top_power};

// Returns the next lower degree whose bits may differ. Up to degree 8 it is the next one, since degree 5 is an exception.
fn lower_degree(strategy: SplitStrategy, degree: usize) -> usize
    requires { Between 1 degree degree_limit }
    ensures { SameDownTo strategy degree result }
{
    if degree <= 8 {
        return degree - 1;
    }
    let power = top_power(degree);
    if degree == power {
        return degree - 1;
    }
    match strategy {
        SplitStrategy::MinDepth => power,
        SplitStrategy::MinMult => {
            let threshold = depth_threshold(bit_len(degree));
            if threshold <= degree {
                threshold - 1
            } else {
                power
            }
        }
    }
}

// Returns the greatest degree from 1 to 4,095 within the budget. Bits need not rise with the degree, so it is looked for from above, and only
// degrees are passed over that have the bits of one that does not fit: a `while`, since the steps down are of several lengths.
fn greatest_within(
    strategy: SplitStrategy,
    budget: u64,
    input: usize,
    coeff: usize,
) -> Option<usize>
    requires { (input ≤ scale_limit) × (coeff ≤ scale_limit) }
    ensures { MatchOption result
        (greatest_within strategy budget input coeff plan_limit ≡ 0)
        (λ degree. (0 < degree) × (degree ≡ greatest_within strategy budget input coeff plan_limit)) }
{
    let mut degree = PLAN_LIMIT;
    while 0 < degree {
        let bits = bits_from_one(strategy, degree, input, coeff);
        if bits as u64 <= budget {
            return Some(degree);
        }
        degree = lower_degree(strategy, degree);
    }
    None
}

// Returns the largest degree from 1 to 4,095 within a budget of bits. It refuses a scale above 65,535, then a budget that no degree is within.
#[tactic(auto, unfolding(crate::specs::Calls::largest_call, number::specs::Refusal::unless_refused))]
pub fn largest_degree(
    strategy: SplitStrategy,
    budget: u64,
    input: usize,
    coeff: usize,
) -> Result<usize, Refusal>
    ensures { largest_in result ≡ largest_call strategy budget input coeff }
{
    if SCALE_LIMIT < input || SCALE_LIMIT < coeff {
        return Err(Refusal::ScaleTooWide);
    }
    greatest_within(strategy, budget, input, coeff).ok_or(Refusal::NothingFits)
}
