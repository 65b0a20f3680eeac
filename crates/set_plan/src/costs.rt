// What members cost.
ghost use Rattle.std.specs.Prelude.{◌≡◌};
ghost use Rattle.sets.specs.SetPlan.{set_cost};
ghost use Rattle.sets.specs.inside.Heads.{HeadFits, HeadsFit};
ghost use Rattle.set_plan.specs.inside.Counting.{own_costs, CostsAre};

use plan::head::{Costs, costs_of, transform_cost};
use sets::own::own_totals;
use walk::Head;

// Returns the costs of a member's lists.
fn own_costs(head: &Head) -> Costs
    requires { HeadFits head.now }
    ensures { result ≡ own_costs head.now }
{
    let totals = own_totals(head);
    costs_of(totals.last_plain(), totals.lists, totals.pt)
}

// Returns those of all members together.
pub fn sum_costs(heads: &[Head]) -> Costs
    requires { HeadsFit heads.now }
    ensures { CostsAre heads.now result }
{
    let mut threes = 0;
    let mut plains = 0;
    for head in heads {
        let own = own_costs(head);
        threes += own.threes;
        plains += own.plains;
    }
    Costs { threes, plains }
}

// Returns the multiplications of the transform that the members have in common.
pub fn set_cost(heads: &[Head]) -> usize
    requires { HeadsFit heads.now }
    ensures { result ≡ set_cost heads.now }
{
    match heads.first() {
        Some(first) => transform_cost(first.transform, heads.len()),
        None => 0,
    }
}
