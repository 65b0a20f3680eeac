// The choice of the split by either strategy, and the pair at the chosen split.
ghost use Rattle.std.specs.Prelude.{◌≡◌, ◌≤◌};
ghost use Rattle.number.specs.Bits.{bit_len};
ghost use Rattle.number.specs.Limits.{degree_limit, plan_limit};
ghost use Rattle.number.specs.inside.Between.{Between};
ghost use Rattle.counts.specs.Pair.{pair_at};
ghost use Rattle.counts.specs.MinDepth.{min_depth};
ghost use Rattle.counts.specs.MinMult.{Smallest, min_mult};
ghost use Rattle.counts.specs.Choice.{split_for};
ghost use Rattle.counts.specs.Calls.{choice_in, counts_in, min_depth_call, min_mult_call, counts_call};
ghost use Rattle.counts.specs.inside.BetterOf.{with_pair, BetterOf};

use super::bound::fewest_ct;
use super::pair::{Pair, estimate_op_counts};
use super::settings::Settings;
use algebra::{Basis, Parity};
use needed::Slicing;
use number::{DEGREE_LIMIT, PLAN_LIMIT, Refusal, bit_len};

// Least depth, or fewest multiplications.
#[derive(Clone, Copy, Debug, PartialEq, Eq)]
pub enum SplitStrategy {
    MinDepth,
    MinMult,
}

// A split with its pair. Of two the better is less: that with the lesser pair, and of equal pairs that with the smaller split.
#[derive(Clone, Copy, Debug, PartialEq, Eq, PartialOrd, Ord)]
pub struct Best {
    pub pair: Pair,
    pub split: usize,
}

// Returns MinDepth's split at a bit length. The cases are listed, one for each length from 1 to 32, so that they can be read off; no accepted degree
// has another.
#[tactic(auto, unfolding(crate::specs::MinDepth::min_depth))]
fn min_depth(bits: usize) -> usize
    requires { Between 1 bits 32 }
    ensures { result ≡ min_depth bits }
{
    match bits {
        1 => 1,
        2 => 1,
        3 => 2,
        4 => 2,
        5 => 3,
        6 => 3,
        7 => 4,
        8 => 4,
        9 => 5,
        10 => 5,
        11 => 6,
        12 => 6,
        13 => 7,
        14 => 7,
        15 => 8,
        16 => 8,
        17 => 9,
        18 => 9,
        19 => 10,
        20 => 10,
        21 => 11,
        22 => 11,
        23 => 12,
        24 => 12,
        25 => 13,
        26 => 13,
        27 => 14,
        28 => 14,
        29 => 15,
        30 => 15,
        31 => 16,
        32 => 16,
        _ => bits,
    }
}

// Returns the better of the best so far and another split, which is passed over if it takes more ct-ct multiplications than the best.
fn better_at(parity: Parity, basis: Basis, best: Best, slicing: Slicing) -> Best
    requires { best.pair ≡ pair_at parity basis slicing.degree best.split }
    ensures { BetterOf best (with_pair (pair_at parity basis slicing.degree) slicing.split) result }
{
    if slicing.split == best.split || best.pair.ct < fewest_ct(parity, slicing) {
        return best;
    }
    let pair = estimate_op_counts(parity, basis, slicing);
    let split = slicing.split;
    best.min(Best { pair, split })
}

// Returns MinDepth's split of a degree from 1.
#[tactic(auto, using(number::proofs::Bits::digits_range))]
pub fn min_depth_of(degree: usize) -> usize
    requires { Between 1 degree degree_limit }
    ensures { result ≡ min_depth (bit_len degree) }
{
    min_depth(bit_len(degree))
}

// Returns the smallest split from 1 to the bit length with the least pair. It begins with a likely one, MinDepth's.
fn best_split(parity: Parity, basis: Basis, degree: usize, bits: usize) -> Best
    requires { Between 1 degree plan_limit × Between 1 bits 12 }
    ensures { Smallest (pair_at parity basis degree) bits result.split }
{
    let likely = min_depth(bits);
    let slicing = Slicing {
        degree,
        split: likely,
    };
    let mut best = Best {
        pair: estimate_op_counts(parity, basis, slicing),
        split: likely,
    };
    for split in 1..=bits {
        best = better_at(parity, basis, best, Slicing { degree, split });
    }
    best
}

// Returns MinMult's split.
#[tactic(auto, using(number::proofs::Bits::few_digits, number::proofs::Bits::digit_some, crate::proofs::MinMultLaws::mult_low))]
fn min_mult(parity: Parity, basis: Basis, degree: usize) -> usize
    requires { degree ≤ plan_limit }
    ensures { result ≡ min_mult parity basis degree }
{
    let bits = bit_len(degree);
    if bits <= 1 {
        return 1;
    }
    best_split(parity, basis, degree, bits).split
}

// Returns the split that a strategy chooses.
#[tactic(auto, unfolding(crate::specs::Choice::split_for))]
pub fn split_for_strategy(settings: Settings, degree: usize) -> usize
    requires { Between 1 degree plan_limit }
    ensures { result ≡ split_for settings.strategy settings.parity settings.basis degree }
{
    match settings.strategy {
        SplitStrategy::MinDepth => min_depth_of(degree),
        SplitStrategy::MinMult => min_mult(settings.parity, settings.basis, degree),
    }
}

// Returns MinDepth's split of a degree. It refuses a degree above 4,294,967,295, then degree 0.
#[tactic(auto, unfolding(crate::specs::Calls::min_depth_call, number::specs::Refusal::unless_refused))]
pub fn min_depth_split(degree: usize) -> Result<usize, Refusal>
    ensures { choice_in result ≡ min_depth_call degree }
{
    if DEGREE_LIMIT < degree {
        return Err(Refusal::DegreeTooHigh);
    }
    if degree == 0 {
        return Err(Refusal::DegreeZero);
    }
    Ok(min_depth_of(degree))
}

// Returns MinMult's split of a degree. It refuses a degree above 4,095.
#[tactic(auto, unfolding(crate::specs::Calls::min_mult_call, number::specs::Refusal::unless_refused))]
pub fn min_mult_split(parity: Parity, basis: Basis, degree: usize) -> Result<usize, Refusal>
    ensures { choice_in result ≡ min_mult_call parity basis degree }
{
    if PLAN_LIMIT < degree {
        return Err(Refusal::DegreeTooHigh);
    }
    Ok(min_mult(parity, basis, degree))
}

// Returns the pair at the chosen split, (0, 0) at degree 0. It refuses a degree above 4,095.
#[tactic(auto, unfolding(crate::specs::Calls::counts_call, number::specs::Refusal::unless_refused))]
pub fn bsgs_op_counts(settings: Settings, degree: usize) -> Result<Pair, Refusal>
    ensures { counts_in result ≡ counts_call settings.strategy settings.parity settings.basis degree }
{
    if PLAN_LIMIT < degree {
        return Err(Refusal::DegreeTooHigh);
    }
    if degree == 0 {
        return Ok(Pair { ct: 0, pt: 0 });
    }
    let split = split_for_strategy(settings, degree);
    let slicing = Slicing { degree, split };
    Ok(estimate_op_counts(settings.parity, settings.basis, slicing))
}
