// The plan call, the trial walk and the heaviest chain.
ghost use Rattle.std.specs.Prelude.{◌≡◌};
ghost use Rattle.walk.specs.Trial.{trial_in};
ghost use Rattle.walk.specs.Chain.{chain_in};
ghost use Rattle.plan.specs.PlanCall.{planned_in};
ghost use Rattle.flat.specs.Flat.{flat_trial, flat_chain};
ghost use Rattle.flat.specs.Heads.{flat_planned};
ghost use Rattle.exports.specs.Planning.{PlanFlat, trial_flat, chain_flat};

use firrozun::{Head, Refusal, heaviest_chain, plan, trial_walk};
use flat::flat::{CChain, CTrial};
use flat::head::{CHead, CPlanned};
use flat::kinds::{read_fold, settings_of};

// Plans by numbers. The many arguments are those of the C call.
fn planned(
    strategy: u8,
    parity: u8,
    basis: u8,
    fold: u8,
    c: &[i64],
    a: f64,
    b: f64,
    out: &mut [i64],
    bounds: &mut [u16],
    steps: &mut [u16],
) -> Result<Head, Refusal>
    ensures { PlanFlat strategy parity basis fold c.now a b out.old bounds.old steps.old
        (flat_planned (planned_in result)) out.new bounds.new steps.new }
{
    let fold = read_fold(fold)?;
    let settings = settings_of(strategy, parity, basis)?;
    plan(settings, fold, c, a, b, out, bounds, steps)
}

#[unsafe(no_mangle)]
pub extern "C" fn firrozun_plan(
    strategy: u8,
    parity: u8,
    basis: u8,
    fold: u8,
    c: &[i64],
    a: f64,
    b: f64,
    out: &mut [i64],
    bounds: &mut [u16],
    steps: &mut [u16],
) -> CPlanned
    ensures { PlanFlat strategy parity basis fold c.now a b out.old bounds.old steps.old
        result out.new bounds.new steps.new }
{
    CPlanned::from(planned(strategy, parity, basis, fold, c, a, b, out, bounds, steps))
}

// Walks the plan of a head of numbers.
fn walked(
    head: CHead,
    coefficients: &[i64],
    bounds: &[u16],
    steps: &[u16],
    point: i64,
    modulus: u64,
) -> Result<u64, Refusal>
    ensures { flat_trial (trial_in result) ≡ trial_flat head coefficients.now bounds.now steps.now point modulus }
{
    trial_walk(
        Head::try_from(head)?,
        coefficients,
        bounds,
        steps,
        point,
        modulus,
    )
}

#[unsafe(no_mangle)]
pub extern "C" fn firrozun_trial_walk(
    head: CHead,
    coefficients: &[i64],
    bounds: &[u16],
    steps: &[u16],
    point: i64,
    modulus: u64,
) -> CTrial
    ensures { result ≡ trial_flat head coefficients.now bounds.now steps.now point modulus }
{
    CTrial::from(walked(head, coefficients, bounds, steps, point, modulus))
}

// Returns the weight of the heaviest chain of a head of numbers.
fn chain(
    head: CHead,
    coefficients: &[i64],
    bounds: &[u16],
    steps: &[u16],
    input: usize,
    coeff: usize,
) -> Result<u64, Refusal>
    ensures { flat_chain (chain_in result) ≡ chain_flat head coefficients.now bounds.now steps.now input coeff }
{
    heaviest_chain(
        Head::try_from(head)?,
        coefficients,
        bounds,
        steps,
        input,
        coeff,
    )
}

#[unsafe(no_mangle)]
pub extern "C" fn firrozun_heaviest_chain(
    head: CHead,
    coefficients: &[i64],
    bounds: &[u16],
    steps: &[u16],
    input: usize,
    coeff: usize,
) -> CChain
    ensures { result ≡ chain_flat head coefficients.now bounds.now steps.now input coeff }
{
    CChain::from(chain(head, coefficients, bounds, steps, input, coeff))
}
