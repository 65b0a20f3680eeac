// A planned set as a struct of numbers.
ghost use Rattle.std.specs.Prelude.{◌≡◌};
ghost use Rattle.sets.specs.SetCall.{set_in};
ghost use Rattle.flat.specs.Sets.{flat_set, flat_set_planned};

use super::head::{CHead, no_head};
use firrozun::{CurveSet, MEMBERS, Refusal};

// The counts of the set, the number of its power steps, and the members' heads, whose steps are counted without power steps. Heads beyond the
// members are zero.
#[repr(C)]
#[derive(Clone, Copy)]
pub struct CCurveSet {
    pub ct: usize,
    pub pt: usize,
    pub powers: usize,
    pub heads: [CHead; MEMBERS],
}

// What the set call answers: 0 or the refusal, and the set, which is all zero after a refusal.
#[repr(C)]
#[derive(Clone, Copy)]
pub struct CSetPlanned {
    pub refusal: u8,
    pub set: CCurveSet,
}

impl From<CurveSet> for CCurveSet {
    ghost from_gives = { λ set c. c ≡ flat_set set };

    fn from(set: CurveSet) -> Self {
        let mut heads = [no_head(); MEMBERS];
        // By index, since a proof does not know what is written through an `iter_mut`.
        for i in 0..MEMBERS {
            heads[i] = CHead::from(set.heads[i]);
        }
        CCurveSet {
            ct: set.ct,
            pt: set.pt,
            powers: set.powers,
            heads,
        }
    }
}

impl From<Result<CurveSet, Refusal>> for CSetPlanned {
    ghost from_gives = { λ r c. c ≡ flat_set_planned (set_in r) };

    fn from(answer: Result<CurveSet, Refusal>) -> Self {
        match answer {
            Ok(set) => CSetPlanned {
                refusal: 0,
                set: CCurveSet::from(set),
            },
            Err(refusal) => CSetPlanned {
                refusal: u8::from(refusal),
                set: CCurveSet {
                    ct: 0,
                    pt: 0,
                    powers: 0,
                    heads: [no_head(); MEMBERS],
                },
            },
        }
    }
}
