// The bits that an evaluation consumes: its heaviest chain, by the closed form.
ghost use Rattle.std.specs.Prelude.{◌≡◌, ◌≤◌};
ghost use Rattle.number.specs.Limits.{degree_limit, scale_limit};
ghost use Rattle.number.specs.inside.Between.{Between};
ghost use Rattle.counts.specs.ConsumedBits.{pure_chain, chain_before, bits_of};
ghost use Rattle.counts.specs.Calls.{bits_in, bits_call};

use super::choice::SplitStrategy;
use super::depth::depth_from_one;
use number::{DEGREE_LIMIT, Refusal, SCALE_LIMIT, bit_len, top_power};

// Counts the ct-ct multiplications of the longest chain without a pt-ct.
#[tactic(auto, using(number::proofs::Bits::digits_range, crate::proofs::ConsumedLaws::pure_less, crate::proofs::ConsumedLaws::pure_whole))]
fn pure_chain(degree: usize) -> usize
    requires { Between 1 degree degree_limit }
    ensures { result ≡ pure_chain degree }
{
    let bits = bit_len(degree);
    if degree == top_power(degree) {
        bits - 1
    } else {
        bits
    }
}

// Counts the ct-ct multiplications of the longest chain with a pt-ct.
#[tactic(auto, using(crate::proofs::DepthLaws::depth_bounds), unfolding(crate::specs::ConsumedBits::chain_before))]
fn chain_before(strategy: SplitStrategy, degree: usize) -> usize
    requires { Between 1 degree degree_limit }
    ensures { result ≡ chain_before strategy degree }
{
    let depth = depth_from_one(strategy, degree);
    match strategy {
        SplitStrategy::MinDepth => depth - 1,
        SplitStrategy::MinMult => if degree == 5 { 1 } else { depth - 1 },
    }
}

// Returns the bits of a degree from 1: the heavier of the two chains.
pub fn bits_from_one(strategy: SplitStrategy, degree: usize, input: usize, coeff: usize) -> usize
    requires { Between 1 degree degree_limit × (input ≤ scale_limit) × (coeff ≤ scale_limit) }
    ensures { result ≡ bits_of strategy degree input coeff }
{
    let pure = pure_chain(degree) * input;
    let before = chain_before(strategy, degree) * input + coeff;
    pure.max(before)
}

// Returns the bits of a degree, 0 at degree 0. It refuses a degree above 4,294,967,295, then a scale above 65,535.
#[tactic(auto, unfolding(crate::specs::Calls::bits_call, crate::specs::ConsumedBits::bits_of, number::specs::Refusal::unless_refused))]
pub fn bsgs_consumed_bits(
    strategy: SplitStrategy,
    degree: usize,
    input: usize,
    coeff: usize,
) -> Result<usize, Refusal>
    ensures { bits_in result ≡ bits_call strategy degree input coeff }
{
    if DEGREE_LIMIT < degree {
        return Err(Refusal::DegreeTooHigh);
    }
    if SCALE_LIMIT < input || SCALE_LIMIT < coeff {
        return Err(Refusal::ScaleTooWide);
    }
    if degree == 0 {
        return Ok(0);
    }
    Ok(bits_from_one(strategy, degree, input, coeff))
}
