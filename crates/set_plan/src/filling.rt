// The lists of members: coefficients and boundaries.
ghost use Rattle.set_plan.specs.inside.Filling.{MemberFits, MemberPut, AllListsFit, AllListsPut};

use plan::write::write_lists;
use sets::Member;
use sets::own::own_slicing;
use walk::Head;

// Writes those of a member: its coefficients to the front of `out`, and its boundaries from boundary `list` on.
fn write_own_lists(
    member: &Member,
    head: &Head,
    list: usize,
    c: &[i64],
    out: &mut [i64],
    bounds: &mut [u16],
)
    requires { MemberFits member.now head.now list c.now out.old bounds.old }
    ensures { MemberPut member.now head.now list c.now out.old bounds.old out.new bounds.new }
{
    write_lists(
        member.settings(),
        member.fold,
        head.coefficients,
        own_slicing(head).split,
        list,
        c,
        out,
        bounds,
    );
}

// Writes those of all members, one member's after another's. The heads are a slice of their own, as the public record holds them without the members.
pub fn write_all_lists(
    members: &[Member],
    heads: &[Head],
    c: &[i64],
    out: &mut [i64],
    bounds: &mut [u16],
)
    requires { AllListsFit members.now heads.now c.now out.old bounds.old }
    ensures { AllListsPut members.now c.now out.old bounds.old out.new bounds.new }
{
    let mut rest = c;
    let mut at = 0;
    let mut list = 0;
    for (member, head) in members.iter().zip(heads) {
        let (own, others) = rest.split_at(member.count);
        write_own_lists(member, head, list, own, &mut out[at..], bounds);
        rest = others;
        at += head.coefficients;
        list += head.lists;
    }
}
