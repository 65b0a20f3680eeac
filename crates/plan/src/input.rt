// What is planned, with folding and without it, and the tests of it.
ghost use Rattle.std.specs.Prelude.{◌≡◌};
ghost use Rattle.number.specs.Refusal.{first_refusal};
ghost use Rattle.number.specs.Refused.{refusal_of};
ghost use Rattle.plan.specs.PlanCall.{planned_parity, planned_transform, settings_tests, input_tests};
ghost use Rattle.plan.specs.inside.Filling.{planned_count};

use counts::Settings;
use number::{
    Basis, PLAN_LIMIT, Parity, PolynomialInputTransform, Refusal, degree_of, fold_count,
    has_parity, is_full, least_folded, sum_fits, transform_of,
};

// Returns how many of n coefficients are planned.
pub fn planned_count(fold: bool, parity: Parity, n: usize) -> usize
    ensures { result ≡ planned_count fold parity n }
{
    if fold { fold_count(parity, n) } else { n }
}

// Returns their parity.
pub fn planned_parity(fold: bool, parity: Parity) -> Parity
    ensures { result ≡ planned_parity fold parity }
{
    if fold { Parity::Full } else { parity }
}

// Returns the settings of what is planned.
pub fn planned_settings(settings: Settings, fold: bool) -> Settings
    ensures { result ≡ record settings { parity = planned_parity fold settings.parity } }
{
    Settings {
        parity: planned_parity(fold, settings.parity),
        ..settings
    }
}

// Returns the transform that they stand behind.
pub fn planned_transform(fold: bool, parity: Parity, basis: Basis) -> PolynomialInputTransform
    ensures { result ≡ planned_transform fold parity basis }
{
    if fold {
        transform_of(parity, basis)
    } else {
        PolynomialInputTransform::Identity
    }
}

// Makes the tests of degree and settings, in their order.
pub fn check_settings(fold: bool, parity: Parity, degree: usize) -> Result<(), Refusal>
    ensures { refusal_of result ≡ first_refusal (settings_tests fold parity degree) }
{
    if PLAN_LIMIT < degree {
        return Err(Refusal::DegreeTooHigh);
    }
    if degree == 0 {
        return Err(Refusal::DegreeZero);
    }
    if fold && is_full(parity) {
        return Err(Refusal::FoldsFull);
    }
    if fold && degree < least_folded(parity) {
        return Err(Refusal::FoldsTooLow);
    }
    Ok(())
}

// Makes the tests of the input, in their order.
pub fn check_input(fold: bool, parity: Parity, c: &[i64]) -> Result<(), Refusal>
    ensures { refusal_of result ≡ first_refusal (input_tests fold parity c.now) }
{
    check_settings(fold, parity, degree_of(c.len()))?;
    if !has_parity(parity, c) {
        return Err(Refusal::WrongParity);
    }
    if !sum_fits(c) {
        return Err(Refusal::SumTooLarge);
    }
    Ok(())
}
