// The head of a plan as a struct of numbers, and back.
ghost use Rattle.std.specs.Prelude.{◌≡◌};
ghost use Rattle.plan.specs.PlanHead.{no_head};
ghost use Rattle.plan.specs.PlanCall.{planned_in};
ghost use Rattle.flat.specs.Heads.{flat_head_interval, interval_meant, flat_head, head_meant, knows_head, flat_planned};
ghost use Rattle.flat.specs.Reads.{Reads};

use super::kinds::{basis_of, parity_of, settings_of, strategy_of, transform_of};
use firrozun::{Head, Interval, PolynomialInputTransform, Refusal};

// The interval with its change pair.
#[repr(C)]
#[derive(Clone, Copy)]
pub struct CHeadInterval {
    pub a: f64,
    pub b: f64,
    pub u: f64,
    pub w: f64,
}

// The four kinds by their numbers. The interval stands last, so that the other fields are where they were before there was one.
#[repr(C)]
#[derive(Clone, Copy)]
pub struct CHead {
    pub basis: u8,
    pub parity: u8,
    pub strategy: u8,
    pub transform: u8,
    pub degree: usize,
    pub base: usize,
    pub ct: usize,
    pub pt: usize,
    pub depth: usize,
    pub coefficients: usize,
    pub lists: usize,
    pub steps: usize,
    pub interval: CHeadInterval,
}

#[repr(C)]
#[derive(Clone, Copy)]
pub struct CPlanned {
    pub refusal: u8,
    pub head: CHead,
}

impl From<Interval> for CHeadInterval {
    ghost from_gives = { λ interval c. c ≡ flat_head_interval interval };

    fn from(interval: Interval) -> Self {
        CHeadInterval {
            a: interval.a,
            b: interval.b,
            u: interval.u,
            w: interval.w,
        }
    }
}

impl From<CHeadInterval> for Interval {
    ghost from_gives = { λ c interval. interval ≡ interval_meant c };

    fn from(flat: CHeadInterval) -> Self {
        Interval {
            a: flat.a,
            b: flat.b,
            u: flat.u,
            w: flat.w,
        }
    }
}

impl From<Head> for CHead {
    ghost from_gives = { λ head c. c ≡ flat_head head };

    fn from(head: Head) -> Self {
        CHead {
            basis: u8::from(head.basis),
            parity: u8::from(head.parity),
            strategy: u8::from(head.strategy),
            transform: u8::from(head.transform),
            degree: head.degree,
            base: head.base,
            ct: head.ct,
            pt: head.pt,
            depth: head.depth,
            coefficients: head.coefficients,
            lists: head.lists,
            steps: head.steps,
            interval: CHeadInterval::from(head.interval),
        }
    }
}

impl TryFrom<CHead> for Head {
    type Error = Refusal;

    ghost try_from_gives = { λ c r. Reads (knows_head c) (head_meant c) r };

    fn try_from(flat: CHead) -> Result<Self, Refusal> {
        let transform = PolynomialInputTransform::try_from(flat.transform)?;
        let settings = settings_of(flat.strategy, flat.parity, flat.basis)?;
        Ok(Head {
            basis: settings.basis,
            parity: settings.parity,
            strategy: settings.strategy,
            transform,
            degree: flat.degree,
            base: flat.base,
            ct: flat.ct,
            pt: flat.pt,
            depth: flat.depth,
            coefficients: flat.coefficients,
            lists: flat.lists,
            steps: flat.steps,
            interval: Interval::from(flat.interval),
        })
    }
}

// Returns the head that is meant, where an unknown kind is taken for the last one.
pub fn head_of(head: CHead) -> Head
    ensures { result ≡ head_meant head }
{
    Head {
        basis: basis_of(head.basis),
        parity: parity_of(head.parity),
        strategy: strategy_of(head.strategy),
        transform: transform_of(head.transform),
        degree: head.degree,
        base: head.base,
        ct: head.ct,
        pt: head.pt,
        depth: head.depth,
        coefficients: head.coefficients,
        lists: head.lists,
        steps: head.steps,
        interval: Interval::from(head.interval),
    }
}

// Returns the head that a refused plan has for C: zero in every field.
pub fn no_head() -> CHead
    ensures { result ≡ flat_head no_head }
{
    CHead {
        basis: 0,
        parity: 0,
        strategy: 0,
        transform: 0,
        degree: 0,
        base: 0,
        ct: 0,
        pt: 0,
        depth: 0,
        coefficients: 0,
        lists: 0,
        steps: 0,
        interval: CHeadInterval {
            a: 0.0,
            b: 0.0,
            u: 0.0,
            w: 0.0,
        },
    }
}

impl From<Result<Head, Refusal>> for CPlanned {
    ghost from_gives = { λ r c. c ≡ flat_planned (planned_in r) };

    fn from(answer: Result<Head, Refusal>) -> Self {
        match answer {
            Ok(head) => CPlanned {
                refusal: 0,
                head: CHead::from(head),
            },
            Err(refusal) => CPlanned {
                refusal: u8::from(refusal),
                head: no_head(),
            },
        }
    }
}
