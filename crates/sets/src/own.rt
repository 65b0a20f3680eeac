// A member by its head: how its degree is cut, and the totals of its lists.
ghost use Rattle.std.specs.Prelude.{◌≡◌, suc};
ghost use Rattle.plan.specs.inside.Outlines.{totals_of};
ghost use Rattle.sets.specs.Own.{own_split, own_tree};
ghost use Rattle.sets.specs.inside.Heads.{HeadFits};

use lists::relists;
use needed::Slicing;
use number::bit_len;
use plan::outline::{Totals, total_lists};
use walk::Head;

// Returns the degree of a member with its split, which the base tells.
pub fn own_slicing(head: &Head) -> Slicing
    requires { HeadFits head.now }
    ensures { (result.degree ≡ head.now.degree) × (result.split ≡ own_split head.now) }
{
    Slicing {
        degree: head.degree,
        split: bit_len(head.base) - 1,
    }
}

// Returns the totals of a member's lists.
pub fn own_totals(head: &Head) -> Totals
    requires { HeadFits head.now }
    ensures { result ≡ totals_of head.now.parity (own_tree head.now) (suc head.now.degree) }
{
    let split = own_slicing(head).split;
    total_lists(
        relists(head.strategy),
        head.parity,
        head.degree,
        head.degree,
        split,
    )
}
