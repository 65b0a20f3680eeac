// The trial walk.
ghost use Rattle.std.specs.Prelude.{◌≡◌};
ghost use Rattle.walk.specs.Lent.{lent_walk};
ghost use Rattle.walk.specs.Trial.{trial_in, trial_of};
ghost use Rattle.walk.specs.inside.Found.{found};

use crate::arithmetic::Arithmetic;
use crate::plan::Head;
use crate::remainder::Modulus;
use crate::steps::run_steps;
use crate::sums::PlanLists;
use crate::transform::{input_of, output_of};
use number::Refusal;

// Walks a lent plan, and returns its value, or `None` where the walk can't run it.
pub fn walk_lent<A: Arithmetic>(
    head: Head,
    point: i64,
    arithmetic: A,
    coefficients: &[i64],
    bounds: &[u16],
    steps: &[u16],
) -> Option<u64>
    ensures { found result ≡ lent_walk (A.rules arithmetic) head coefficients.now bounds.now steps.now point }
{
    let n = head.coefficients;
    let list_count = head.lists;
    let count = head.steps;
    if coefficients.len() < n {
        return None;
    }
    if bounds.len() < list_count {
        return None;
    }
    if steps.len() / 4 < count {
        return None;
    }
    let lists = PlanLists::new(&coefficients[..n], &bounds[..list_count])?;
    let x = arithmetic.point(point);
    let y = input_of(head.transform, x, arithmetic);
    let v = run_steps(head.parity, head.basis, count, y, arithmetic, &lists, steps)?;
    Some(output_of(head.transform, x, v, arithmetic))
}

// Walks a lent plan modulo a modulus, and returns the remainder of its value. It refuses a modulus that is out of range, and a plan that the walk can't
// run.
pub fn trial_walk(
    head: Head,
    coefficients: &[i64],
    bounds: &[u16],
    steps: &[u16],
    point: i64,
    modulus: u64,
) -> Result<u64, Refusal>
    ensures { trial_in result ≡ trial_of head coefficients.now bounds.now steps.now point modulus }
{
    let modulus = Modulus::new(modulus)?;
    walk_lent(head, point, modulus, coefficients, bounds, steps).ok_or(Refusal::Unwalkable)
}
