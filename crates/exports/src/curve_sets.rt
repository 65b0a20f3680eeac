// The set calls.
ghost use Rattle.std.specs.Prelude.{◌≡◌};
ghost use Rattle.plan.specs.PlanSizes.{plan_sizes_in};
ghost use Rattle.sets.specs.SetCall.{set_in};
ghost use Rattle.flat.specs.Flat.{flat_sizes};
ghost use Rattle.flat.specs.Sets.{flat_set_planned};
ghost use Rattle.exports.specs.Sets.{SetFlat, set_sizes_flat};

use firrozun::{CurveSet, Members, Refusal, Sizes, plan_set, set_sizes};
use flat::flat::CSizes;
use flat::members::CMembers;
use flat::planned_set::CSetPlanned;

fn planned_set(
    members: CMembers,
    c: &[i64],
    out: &mut [i64],
    bounds: &mut [u16],
    steps: &mut [u16],
) -> Result<CurveSet, Refusal>
    ensures { SetFlat members c.now out.old bounds.old steps.old
        (flat_set_planned (set_in result)) out.new bounds.new steps.new }
{
    plan_set(Members::try_from(members)?, c, out, bounds, steps)
}

#[unsafe(no_mangle)]
pub extern "C" fn firrozun_plan_set(
    members: CMembers,
    c: &[i64],
    out: &mut [i64],
    bounds: &mut [u16],
    steps: &mut [u16],
) -> CSetPlanned
    ensures { SetFlat members c.now out.old bounds.old steps.old
        result out.new bounds.new steps.new }
{
    CSetPlanned::from(planned_set(members, c, out, bounds, steps))
}

fn sizes(members: CMembers) -> Result<Sizes, Refusal>
    ensures { flat_sizes (plan_sizes_in result) ≡ set_sizes_flat members }
{
    set_sizes(Members::try_from(members)?)
}

#[unsafe(no_mangle)]
pub extern "C" fn firrozun_set_sizes(members: CMembers) -> CSizes
    ensures { result ≡ set_sizes_flat members }
{
    CSizes::from(sizes(members))
}
