// The head of a plan.
ghost use Rattle.std.specs.Prelude.{◌≡◌, ◌+◌, ◌≤◌, cond, ◌&&◌, leb};
ghost use Rattle.number.specs.Limits.{plan_limit, count_limit};
ghost use Rattle.number.specs.inside.Between.{Between};
ghost use Rattle.plan.specs.PlanHead.{head_of, no_head};
ghost use Rattle.plan.specs.PlanCall.{planned_parity, planned_transform};
ghost use Rattle.plan.specs.inside.Outlines.{outline_for, costs_of, cost_for};

use super::input::{planned_settings, planned_transform};
use super::outline::Outline;
use counts::{Settings, SplitStrategy, depth_from_one};
use number::{Basis, Interval, Parity, PolynomialInputTransform, power_of_two};
use walk::Head;

// The combines of kind 3, and the multiplications with plain numbers.
#[derive(Clone, Copy)]
pub struct Costs {
    pub threes: usize,
    pub plains: usize,
}

// Returns how many combines are of kind 4: one at a plain last list that is not the only one.
pub fn plain_steps(plain: bool, lists: usize) -> usize
    ensures { result ≡ cond (plain && leb 2 lists) 1 0 }
{
    if plain && 2 <= lists { 1 } else { 0 }
}

// Returns what so many lists cost, of which the last may be plain, with `pt` allowed powers from 1 up over all of them: a plain last list that is not the
// only one makes its combine one of kind 4.
pub fn costs_of(plain: bool, lists: usize, pt: usize) -> Costs
    requires { (1 ≤ lists) × (lists + pt ≤ count_limit) }
    ensures { result ≡ costs_of plain lists pt }
{
    let fours = plain_steps(plain, lists);
    Costs {
        threes: lists - 1 - fours,
        plains: pt + fours,
    }
}

// Returns the multiplications of a transform for so many curves: that which makes y is done once, and that by the input for each curve.
pub fn transform_cost(transform: PolynomialInputTransform, curves: usize) -> usize
    requires { curves ≤ count_limit }
    ensures { result ≡ cost_for transform curves }
{
    match transform {
        PolynomialInputTransform::Identity => 0,
        PolynomialInputTransform::Square | PolynomialInputTransform::ChebyshevT2 => 1,
        PolynomialInputTransform::SquareTimesInput
        | PolynomialInputTransform::ChebyshevT2TimesInput => 1 + curves,
    }
}

// Returns the head of what is planned, which has this interval, degree and outline.
pub fn head_of(
    settings: Settings,
    fold: bool,
    interval: Interval,
    degree: usize,
    outline: Outline,
) -> Head
    requires { Between 1 degree plan_limit × (outline ≡ outline_for settings.strategy (planned_parity fold settings.parity) settings.basis degree) }
    ensures { result ≡ head_of settings.strategy (planned_parity fold settings.parity) settings.basis
        (planned_transform fold settings.parity settings.basis) interval degree }
{
    let planned = planned_settings(settings, fold);
    let transform = planned_transform(fold, settings.parity, settings.basis);
    let costs = costs_of(outline.plain, outline.lists, outline.pt);
    let cost = transform_cost(transform, 1);
    let depth = depth_from_one(planned.strategy, degree);
    let base = power_of_two(outline.split);
    Head {
        basis: planned.basis,
        parity: planned.parity,
        strategy: planned.strategy,
        transform,
        degree,
        base,
        ct: outline.powers + costs.threes + cost,
        pt: costs.plains,
        depth: depth + cost,
        coefficients: outline.coefficients,
        lists: outline.lists,
        steps: outline.steps,
        interval,
    }
}

// Returns the head of no plan: zeros, and the first value of each enum. It is no derived default, since an enum has none.
pub fn no_head() -> Head
    ensures { result ≡ no_head }
{
    Head {
        basis: Basis::Monomial,
        parity: Parity::Full,
        strategy: SplitStrategy::MinDepth,
        transform: PolynomialInputTransform::Identity,
        degree: 0,
        base: 0,
        ct: 0,
        pt: 0,
        depth: 0,
        coefficients: 0,
        lists: 0,
        steps: 0,
        interval: Interval::default(),
    }
}
