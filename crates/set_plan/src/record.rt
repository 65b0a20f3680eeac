// The record of a set by its members' heads, and the sizes of its buffers.
ghost use Rattle.std.specs.Prelude.{◌≡◌, take};
ghost use Rattle.plan.specs.PlanSizes.{plan_sizes_in};
ghost use Rattle.sets.specs.SetPlan.{set_of};
ghost use Rattle.sets.specs.SetSizes.{set_sizes_of};
ghost use Rattle.sets.specs.inside.Marking.{PowersCounted};
ghost use Rattle.set_plan.specs.inside.Counting.{RecordAsked};

use super::costs::{set_cost, sum_costs};
use plan::Sizes;
use sets::{CurveSet, MEMBERS};
use walk::Head;

// Returns the record of the first `count` members, whose common powers are so many. Behind them the heads are zero.
pub fn set_record(heads: [Head; MEMBERS], count: usize, powers: usize) -> CurveSet
    requires { RecordAsked heads count powers }
    ensures { result ≡ set_of (take count heads) }
{
    let members = &heads[..count];
    let costs = sum_costs(members);
    let cost = set_cost(members);
    CurveSet {
        ct: powers + costs.threes + cost,
        pt: costs.plains,
        powers,
        heads,
    }
}

// Returns how many coefficients, lists and steps the members have together, whose common powers are so many.
pub fn total_sizes(heads: &[Head], powers: usize) -> Sizes
    requires { PowersCounted heads.now powers }
    ensures { plan_sizes_in (Ok result) ≡ set_sizes_of heads.now }
{
    let mut coefficients = 0;
    let mut lists = 0;
    let mut steps = powers;
    for head in heads {
        coefficients += head.coefficients;
        lists += head.lists;
        steps += head.steps;
    }
    Sizes {
        coefficients,
        lists,
        steps,
    }
}
