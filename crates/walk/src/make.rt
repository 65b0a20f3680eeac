// Making a power of its parts.
ghost use Rattle.std.specs.Prelude.{◌≡◌, ◌≤◌};
ghost use Rattle.number.specs.Limits.{degree_limit};
ghost use Rattle.number.specs.Options.{image};
ghost use Rattle.number.specs.Split.{split_of};
ghost use Rattle.walk.specs.Make.{power_from, make_of};
ghost use Rattle.walk.specs.inside.Found.{found};
ghost use Rattle.walk.specs.inside.Powers.{powers_of};

use crate::arithmetic::Arithmetic;
use crate::powers::Powers;
use number::{Basis, PLAN_LIMIT, Split, parts_of};

// Returns X_a·X_b, or 2·T_a·T_b - T_c with c the distance, where these powers were made.
#[tactic(auto, unfolding(crate::specs::Make::power_from))]
fn power_from<A: Arithmetic>(
    basis: Basis,
    a: usize,
    b: usize,
    distance: usize,
    arithmetic: A,
    powers: &Powers,
) -> Option<u64>
    ensures { found result ≡ power_from (A.rules arithmetic) basis (powers_of powers.now) a b distance }
{
    let u = powers.get(a)?;
    let v = powers.get(b)?;
    match basis {
        Basis::Monomial => Some(arithmetic.product(u, v)),
        Basis::Chebyshev => {
            let w = powers.get(distance)?;
            Some(arithmetic.product_less(u, v, w))
        }
    }
}

// Returns the split of n, and zeros below 2, where an index has none.
fn split_or_zeros(n: usize) -> Split
    requires { n ≤ degree_limit }
    ensures { (result.a ≡ (split_of n).a) × (result.b ≡ (split_of n).b) × (result.distance ≡ (split_of n).distance) }
{
    if n < 2 {
        return Split {
            a: 0,
            b: 0,
            distance: 0,
        };
    }
    parts_of(n)
}

// Makes power n of powers a and b. It returns `None` where n is above 4,095 or was made before, where a and b are not the parts of its split, and where
// a power that it needs was not made.
#[tactic(auto, unfolding(crate::specs::Make::make_of, crate::specs::Make::is_makeable))]
pub fn make_power<A: Arithmetic>(
    basis: Basis,
    n: usize,
    a: usize,
    b: usize,
    arithmetic: A,
    powers: &mut Powers,
) -> Option<()>
    ensures { image (λ _. powers_of powers.new) (found result) ≡ make_of (A.rules arithmetic) basis (powers_of powers.old) n a b }
{
    if PLAN_LIMIT < n {
        return None;
    }
    if powers.get(n).is_some() {
        return None;
    }
    let split = split_or_zeros(n);
    if a != split.a {
        return None;
    }
    if b != split.b {
        return None;
    }
    let v = power_from(basis, a, b, split.distance, arithmetic, powers)?;
    powers.insert(n, v);
    Some(())
}
