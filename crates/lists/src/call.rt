// What a list call makes, and its tests, which numbers alone decide.
ghost use Rattle.std.specs.Prelude.{◌≡◌};
ghost use Rattle.number.specs.Refused.{refusal_of};
ghost use Rattle.lists.specs.inside.ListTests.{early_refusal};

use number::{PLAN_LIMIT, Refusal, degree_of};

// What a list call made: the degree, the base, and the numbers of coefficients and lists.
#[derive(Clone, Copy, Debug, PartialEq, Eq)]
pub struct Listing {
    pub degree: usize,
    pub base: usize,
    pub coefficients: usize,
    pub lists: usize,
}

// Makes the tests ahead of the boundaries, in order, for n coefficients, small enough or not, and `room` places.
pub fn check_sizes(n: usize, small: bool, room: usize) -> Result<(), Refusal>
    ensures { refusal_of result ≡ early_refusal n small room }
{
    let degree = degree_of(n);
    if PLAN_LIMIT < degree {
        return Err(Refusal::DegreeTooHigh);
    }
    if degree == 0 {
        return Err(Refusal::DegreeZero);
    }
    if !small {
        return Err(Refusal::SumTooLarge);
    }
    if room < n {
        return Err(Refusal::CoefficientsShort);
    }
    Ok(())
}
