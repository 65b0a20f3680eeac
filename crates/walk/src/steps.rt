// The steps of a plan, one after another.
ghost use Rattle.std.specs.Prelude.{◌≡◌, ◌*◌, ◌≤◌, length};
ghost use Rattle.number.specs.Options.{image};
ghost use Rattle.walk.specs.Load.{load_of};
ghost use Rattle.walk.specs.Combine.{combine_of};
ghost use Rattle.walk.specs.Walk.{step_of, walk_of};
ghost use Rattle.walk.specs.Boundaries.{list_at};
ghost use Rattle.walk.specs.Lent.{steps_from};
ghost use Rattle.walk.specs.inside.Found.{found};
ghost use Rattle.walk.specs.inside.Powers.{powers_of, state_of};

use crate::arithmetic::Arithmetic;
use crate::make::make_power;
use crate::plan::{Instruction, Step, step_at};
use crate::powers::Powers;
use crate::sums::{PlanLists, sum_list};
use crate::waiting::Waiting;
use number::{Basis, Parity};

// Pushes the value of list i.
#[tactic(auto, unfolding(crate::specs::Load::load_of))]
fn load<A: Arithmetic>(
    parity: Parity,
    i: usize,
    arithmetic: A,
    waiting: Waiting,
    lists: &PlanLists,
    powers: &Powers,
) -> Option<Waiting>
    ensures { image (λ w. w.list) (found result) ≡ load_of (A.rules arithmetic) parity (powers_of powers.now)
        (list_at lists.now.coefficients.now lists.now.bounds.now) waiting.list i }
{
    let list = lists.get(i)?;
    let v = sum_list(parity, arithmetic, list, powers)?;
    waiting.push(v)
}

// Combines high and low by power p.
#[tactic(auto, unfolding(crate::specs::Combine::combine_of))]
fn combine<A: Arithmetic>(
    plain: bool,
    p: usize,
    arithmetic: A,
    waiting: Waiting,
    powers: &Powers,
) -> Option<Waiting>
    ensures { image (λ w. w.list) (found result) ≡ combine_of (A.rules arithmetic) plain (powers_of powers.now) waiting.list p }
{
    let v = powers.get(p)?;
    waiting.join(plain, v, arithmetic)
}

// Takes one step, and returns what waits after it.
fn take_step<A: Arithmetic>(
    parity: Parity,
    basis: Basis,
    step: Step,
    arithmetic: A,
    waiting: Waiting,
    lists: &PlanLists,
    powers: &mut Powers,
) -> Option<Waiting>
    ensures { image (λ after. state_of powers.new after.list) (found result)
        ≡ step_of (A.rules arithmetic) parity basis (list_at lists.now.coefficients.now lists.now.bounds.now) step (state_of powers.old waiting.list) }
{
    let instruction = step.decode()?;
    match instruction {
        Instruction::Make { n, a, b } => {
            make_power(basis, n, a, b, arithmetic, powers)?;
            Some(waiting)
        }
        Instruction::Load(i) => load(parity, i, arithmetic, waiting, lists, powers),
        Instruction::Combine { plain, power } => combine(plain, power, arithmetic, waiting, powers),
    }
}

// Takes all steps, from power 1 = y to the one value that is left.
pub fn run_steps<A: Arithmetic>(
    parity: Parity,
    basis: Basis,
    count: usize,
    y: u64,
    arithmetic: A,
    lists: &PlanLists,
    steps: &[u16],
) -> Option<u64>
    requires { 4 * count ≤ length steps.now }
    ensures { found result ≡ walk_of (A.rules arithmetic) parity basis
        (list_at lists.now.coefficients.now lists.now.bounds.now) (steps_from steps.now 0 count) y }
{
    let mut powers = Powers::first(y, arithmetic);
    let mut waiting = Waiting::none();
    for i in 0..count {
        waiting = take_step(
            parity,
            basis,
            step_at(i, steps),
            arithmetic,
            waiting,
            lists,
            &mut powers,
        )?;
    }
    waiting.one_left()
}
