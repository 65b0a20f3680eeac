// The call that plans a set.
ghost use Rattle.sets.specs.SetCall.{SetCall, set_in};

use super::filling::write_all_lists;
use super::outline::set_outline;
use super::record::set_record;
use number::Refusal;
use plan::call::check_buffers;
use sets::call::check_ahead;
use sets::steps::write_set;
use sets::{CurveSet, Members};

// Plans curves of one reading as a set. Their coefficients stand one after another in `c`. The call leaves their lists one after another in `out`, in
// `bounds` the place just past each list, counted from 0 for each member, and in `steps` four numbers a step: the common power steps, and then the loads
// and combines of each member. Every test is made before the first write.
pub fn plan_set(
    members: Members,
    c: &[i64],
    out: &mut [i64],
    bounds: &mut [u16],
    steps: &mut [u16],
) -> Result<CurveSet, Refusal>
    ensures { SetCall members c.now out.old bounds.old steps.old
        (set_in result) out.new bounds.new steps.new }
{
    check_ahead(&members, c)?;
    let curves = members.list();
    let outline = set_outline(curves);
    check_buffers(outline.sizes, out.len(), bounds.len(), steps.len())?;
    let heads = &outline.heads[..curves.len()];
    write_all_lists(curves, heads, c, out, bounds);
    write_set(heads, &outline.marks, steps);
    Ok(set_record(outline.heads, curves.len(), outline.powers))
}
