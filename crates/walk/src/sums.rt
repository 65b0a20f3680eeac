// The lists of a plan, and their values.
ghost use Rattle.std.specs.Prelude.{◌≡◌, true, false, ◌<◌, length, MatchOption};
ghost use Rattle.number.specs.Options.{image};
ghost use Rattle.walk.specs.Load.{add_place, sum_from};
ghost use Rattle.walk.specs.Boundaries.{rises, start_of, list_at};
ghost use Rattle.walk.specs.inside.Found.{found};
ghost use Rattle.walk.specs.inside.Powers.{powers_of};

use crate::arithmetic::Arithmetic;
use crate::powers::Powers;
use number::{Parity, is_allowed};

// The lists one after another, and where each of them ends.
#[derive(Clone, Copy)]
pub struct PlanLists<'a> {
    pub coefficients: &'a [i64],
    pub bounds: &'a [u16],
    ghost rising: { rises 0 (length coefficients.now) bounds.now ≡ true },
}

// Returns whether the boundaries rise strictly from 0 and none passes `most`.
pub fn bounds_rise(most: usize, bounds: &[u16]) -> bool
    ensures { result ≡ rises 0 most bounds.now }
{
    let mut last = 0;
    for bound in bounds {
        let bound = usize::from(*bound);
        if bound <= last {
            return false;
        }
        if most < bound {
            return false;
        }
        last = bound;
    }
    true
}

// Returns where list i starts.
fn start_of(i: usize, bounds: &[u16]) -> usize
    requires { i < length bounds.now }
    ensures { result ≡ start_of bounds.now i }
{
    if i == 0 {
        0
    } else {
        usize::from(bounds[i - 1])
    }
}

impl<'a> PlanLists<'a> {
    // Returns the lists, or `None` where the boundaries do not rise from 0 within the coefficients.
    pub fn new(coefficients: &'a [i64], bounds: &'a [u16]) -> Option<PlanLists<'a>>
        ensures { MatchOption result (rises 0 (length coefficients.now) bounds.now ≡ false)
            (λ lists. (lists.coefficients.now ≡ coefficients.now) × (lists.bounds.now ≡ bounds.now)) }
    {
        if !bounds_rise(coefficients.len(), bounds) {
            return None;
        }
        Some(PlanLists {
            coefficients,
            bounds,
        })
    }

    // Returns list i, or `None` past the last one.
    pub fn get(&self, i: usize) -> Option<&'a [i64]>
        ensures { image (λ list. list.now) (found result) ≡ list_at self.now.coefficients.now self.now.bounds.now i }
    {
        if self.bounds.len() <= i {
            return None;
        }
        let start = start_of(i, self.bounds);
        let end = usize::from(self.bounds[i]);
        Some(&self.coefficients[start..end])
    }
}

// Returns the sum with place j, where the parity allows it and power j was made.
#[tactic(auto, unfolding(crate::specs::Load::add_place))]
fn add_place<A: Arithmetic>(
    parity: Parity,
    j: usize,
    sum: u64,
    c: i64,
    arithmetic: A,
    powers: &Powers,
) -> Option<u64>
    ensures { found result ≡ add_place (A.rules arithmetic) parity (powers_of powers.now) j sum c }
{
    if !is_allowed(parity, j) {
        return Some(sum);
    }
    let power = powers.get(j)?;
    Some(arithmetic.place(sum, c, j, power))
}

// Returns a list's value.
pub fn sum_list<A: Arithmetic>(
    parity: Parity,
    arithmetic: A,
    list: &[i64],
    powers: &Powers,
) -> Option<u64>
    ensures { found result ≡ sum_from (A.rules arithmetic) parity (powers_of powers.now) 0 (A.rules arithmetic).nothing list.now }
{
    let mut sum = 0;
    for (j, c) in list.iter().enumerate() {
        sum = add_place(parity, j, sum, *c, arithmetic, powers)?;
    }
    Some(sum)
}
