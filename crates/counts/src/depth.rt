// The depth of an evaluation. Here and beside, a degree from 1 stays a bare number with a `requires`: a struct around one number would have to be
// opened at every use.
ghost use Rattle.std.specs.Prelude.{◌≡◌};
ghost use Rattle.number.specs.Limits.{degree_limit};
ghost use Rattle.number.specs.inside.Between.{Between};
ghost use Rattle.counts.specs.Depth.{threshold, depth_of};
ghost use Rattle.counts.specs.Calls.{depth_in, depth_call};

use super::choice::SplitStrategy;
use number::{DEGREE_LIMIT, Refusal, bit_len, power_of_two};

// Returns the least degree of a bit length at which MinMult takes one level more.
#[tactic(auto, using(number::proofs::Bits::power_range, crate::proofs::DepthLaws::half_fits))]
pub fn depth_threshold(bits: usize) -> usize
    requires { Between 1 bits 32 }
    ensures { result ≡ threshold bits }
{
    power_of_two(bits) - power_of_two((bits - 1) / 2) + 1
}

// Returns the depth of a degree from 1.
pub fn depth_from_one(strategy: SplitStrategy, degree: usize) -> usize
    requires { Between 1 degree degree_limit }
    ensures { result ≡ depth_of strategy degree }
{
    let bits = bit_len(degree);
    match strategy {
        SplitStrategy::MinDepth => bits,
        SplitStrategy::MinMult => if depth_threshold(bits) <= degree {
            bits + 1
        } else {
            bits
        },
    }
}

// Returns the depth of a degree, 0 at degree 0. It refuses a degree above 4,294,967,295.
#[tactic(auto, unfolding(crate::specs::Calls::depth_call, crate::specs::Depth::depth_of, number::specs::Refusal::unless_refused))]
pub fn bsgs_eval_depth(strategy: SplitStrategy, degree: usize) -> Result<usize, Refusal>
    ensures { depth_in result ≡ depth_call strategy degree }
{
    if DEGREE_LIMIT < degree {
        return Err(Refusal::DegreeTooHigh);
    }
    if degree == 0 {
        return Ok(0);
    }
    Ok(depth_from_one(strategy, degree))
}
