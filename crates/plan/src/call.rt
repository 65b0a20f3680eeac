// The plan call.
ghost use Rattle.std.specs.Prelude.{◌≡◌};
ghost use Rattle.number.specs.Refused.{refusal_of};
ghost use Rattle.plan.specs.PlanCall.{PlanCall, planned_in};
ghost use Rattle.plan.specs.inside.Filling.{buffer_refusal};

use super::head::head_of;
use super::input::check_input;
use super::outline::planned_outline;
use super::sizes::Sizes;
use super::write::fill;
use counts::Settings;
use number::{Refusal, change_of_basis, degree_of};
use walk::Head;

// Tests whether the buffers hold so many coefficients, lists and steps: they have `room`, `boundaries` and `numbers` places.
#[tactic(auto, unfolding(crate::specs::inside::Filling::buffer_refusal))]
pub fn check_buffers(
    sizes: Sizes,
    room: usize,
    boundaries: usize,
    numbers: usize,
) -> Result<(), Refusal>
    ensures { refusal_of result ≡ buffer_refusal sizes.coefficients sizes.lists sizes.steps room boundaries numbers }
{
    if room < sizes.coefficients {
        return Err(Refusal::CoefficientsShort);
    }
    if boundaries < sizes.lists {
        return Err(Refusal::BoundariesShort);
    }
    if numbers / 4 < sizes.steps {
        return Err(Refusal::StepsShort);
    }
    Ok(())
}

// Plans whole coefficients on the interval from a to b: the lists one after another in `out`, in `bounds` the place just past each, and in `steps`
// four numbers a step. Every test is made before the first write.
pub fn plan(
    settings: Settings,
    fold: bool,
    c: &[i64],
    a: f64,
    b: f64,
    out: &mut [i64],
    bounds: &mut [u16],
    steps: &mut [u16],
) -> Result<Head, Refusal>
    ensures { PlanCall settings.strategy settings.parity settings.basis fold c.now a b
        out.old bounds.old steps.old (planned_in result) out.new bounds.new steps.new }
{
    check_input(fold, settings.parity, c)?;
    // A bound that is a NaN is in no order either.
    if !(a < b) {
        return Err(Refusal::IntervalUnordered);
    }
    let outline = planned_outline(settings, fold, degree_of(c.len()));
    let interval = change_of_basis(settings.basis, a, b);
    let degree = outline.coefficients - 1;
    let head = head_of(settings, fold, interval, degree, outline);
    check_buffers(outline.sizes(), out.len(), bounds.len(), steps.len())?;
    fill(settings, fold, outline, c, out, bounds, steps);
    Ok(head)
}
