// The sizes of a plan before its curve is there.
ghost use Rattle.std.specs.Prelude.{◌≡◌};
ghost use Rattle.plan.specs.PlanSizes.{sizes_call, plan_sizes_in};

use super::input::check_settings;
use super::outline::planned_outline;
use counts::Settings;
use number::Refusal;

// How many coefficients, lists and steps a plan has.
#[derive(Clone, Copy, Debug, PartialEq, Eq)]
pub struct Sizes {
    pub coefficients: usize,
    pub lists: usize,
    pub steps: usize,
}

// Returns the sizes of every plan of a degree that is made with these settings. The plan call takes its own from the same outline.
pub fn plan_sizes(settings: Settings, fold: bool, degree: usize) -> Result<Sizes, Refusal>
    ensures { plan_sizes_in result ≡ sizes_call settings.strategy settings.parity settings.basis fold degree }
{
    check_settings(fold, settings.parity, degree)?;
    Ok(planned_outline(settings, fold, degree).sizes())
}
