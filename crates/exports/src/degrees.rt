// The calls on bare numbers: the split of an index, the choice of the split, counts, depth, bits, the largest degree for a budget and the sizes of a plan.
ghost use Rattle.std.specs.Prelude.{◌≡◌};
ghost use Rattle.number.specs.Split.{split_of};
ghost use Rattle.counts.specs.Calls.{min_depth_call, choice_in, counts_in, depth_in, bits_in, largest_in};
ghost use Rattle.plan.specs.PlanSizes.{plan_sizes_in};
ghost use Rattle.flat.specs.Flat.{flat_parts, flat_split, flat_counts, flat_depth, flat_bits, flat_degree, flat_sizes};
ghost use Rattle.exports.specs.Degrees.{min_mult_flat, counts_flat, depth_flat, bits_flat, largest_flat, sizes_flat};

use firrozun::{
    Basis, Pair, Parity, Refusal, Sizes, SplitStrategy, bsgs_consumed_bits, bsgs_eval_depth,
    bsgs_op_counts, largest_degree, min_depth_split, min_mult_split, plan_sizes, split_degree,
};
use flat::flat::{CBits, CCounts, CDegree, CDepth, CParts, CSizes, CSplit};
use flat::kinds::{read_fold, settings_of};

#[unsafe(no_mangle)]
pub extern "C" fn firrozun_split_degree(n: usize) -> CParts
    ensures { result ≡ flat_parts (split_of n) }
{
    CParts::from(split_degree(n))
}

#[unsafe(no_mangle)]
pub extern "C" fn firrozun_min_depth_split(degree: usize) -> CSplit
    ensures { result ≡ flat_split (min_depth_call degree) }
{
    CSplit::from(min_depth_split(degree))
}

fn min_mult(parity: u8, basis: u8, degree: usize) -> Result<usize, Refusal>
    ensures { flat_split (choice_in result) ≡ min_mult_flat parity basis degree }
{
    min_mult_split(Parity::try_from(parity)?, Basis::try_from(basis)?, degree)
}

#[unsafe(no_mangle)]
pub extern "C" fn firrozun_min_mult_split(parity: u8, basis: u8, degree: usize) -> CSplit
    ensures { result ≡ min_mult_flat parity basis degree }
{
    CSplit::from(min_mult(parity, basis, degree))
}

fn op_counts(strategy: u8, parity: u8, basis: u8, degree: usize) -> Result<Pair, Refusal>
    ensures { flat_counts (counts_in result) ≡ counts_flat strategy parity basis degree }
{
    bsgs_op_counts(settings_of(strategy, parity, basis)?, degree)
}

#[unsafe(no_mangle)]
pub extern "C" fn firrozun_bsgs_op_counts(
    strategy: u8,
    parity: u8,
    basis: u8,
    degree: usize,
) -> CCounts
    ensures { result ≡ counts_flat strategy parity basis degree }
{
    CCounts::from(op_counts(strategy, parity, basis, degree))
}

fn eval_depth(strategy: u8, degree: usize) -> Result<usize, Refusal>
    ensures { flat_depth (depth_in result) ≡ depth_flat strategy degree }
{
    bsgs_eval_depth(SplitStrategy::try_from(strategy)?, degree)
}

#[unsafe(no_mangle)]
pub extern "C" fn firrozun_bsgs_eval_depth(strategy: u8, degree: usize) -> CDepth
    ensures { result ≡ depth_flat strategy degree }
{
    CDepth::from(eval_depth(strategy, degree))
}

fn consumed_bits(strategy: u8, degree: usize, input: usize, coeff: usize) -> Result<usize, Refusal>
    ensures { flat_bits (bits_in result) ≡ bits_flat strategy degree input coeff }
{
    bsgs_consumed_bits(SplitStrategy::try_from(strategy)?, degree, input, coeff)
}

#[unsafe(no_mangle)]
pub extern "C" fn firrozun_bsgs_consumed_bits(
    strategy: u8,
    degree: usize,
    input: usize,
    coeff: usize,
) -> CBits
    ensures { result ≡ bits_flat strategy degree input coeff }
{
    CBits::from(consumed_bits(strategy, degree, input, coeff))
}

fn largest(strategy: u8, budget: u64, input: usize, coeff: usize) -> Result<usize, Refusal>
    ensures { flat_degree (largest_in result) ≡ largest_flat strategy budget input coeff }
{
    largest_degree(SplitStrategy::try_from(strategy)?, budget, input, coeff)
}

#[unsafe(no_mangle)]
pub extern "C" fn firrozun_largest_degree(
    strategy: u8,
    budget: u64,
    input: usize,
    coeff: usize,
) -> CDegree
    ensures { result ≡ largest_flat strategy budget input coeff }
{
    CDegree::from(largest(strategy, budget, input, coeff))
}

fn sizes(strategy: u8, parity: u8, basis: u8, fold: u8, degree: usize) -> Result<Sizes, Refusal>
    ensures { flat_sizes (plan_sizes_in result) ≡ sizes_flat strategy parity basis fold degree }
{
    let fold = read_fold(fold)?;
    plan_sizes(settings_of(strategy, parity, basis)?, fold, degree)
}

#[unsafe(no_mangle)]
pub extern "C" fn firrozun_plan_sizes(
    strategy: u8,
    parity: u8,
    basis: u8,
    fold: u8,
    degree: usize,
) -> CSizes
    ensures { result ≡ sizes_flat strategy parity basis fold degree }
{
    CSizes::from(sizes(strategy, parity, basis, fold, degree))
}
