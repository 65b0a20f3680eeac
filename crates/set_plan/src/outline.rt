// What is worked out of a set before anything is written.
ghost use Rattle.std.specs.Prelude.{◌≡◌, true};
ghost use Rattle.sets.specs.Members.{all_alike};
ghost use Rattle.sets.specs.inside.Planning.{MembersPass};
ghost use Rattle.set_plan.specs.inside.Counting.{Outlined};

use super::record::total_sizes;
use needed::MARKS;
use plan::Sizes;
use sets::input::set_heads;
use sets::marks::{common_marks, count_common};
use sets::{MEMBERS, Member};
use walk::Head;

// The members' heads, with zero heads behind them, the marks of the common powers, how many these are, and the sizes of the buffers.
#[derive(Drop)]
pub struct SetOutline {
    pub heads: [Head; MEMBERS],
    pub marks: [bool; MARKS],
    pub powers: usize,
    pub sizes: Sizes,
}

// Returns the outline of members that pass their tests. It is made where the call keeps it: handed back from a function apart it stands on the stack twice.
#[inline(always)]
pub fn set_outline(members: &[Member]) -> SetOutline
    requires { MembersPass members.now × (all_alike members.now ≡ true) }
    ensures { Outlined members.now result }
{
    let heads = set_heads(members);
    let own = &heads[..members.len()];
    let marks = common_marks(heads[0].basis, own);
    let powers = count_common(own, &marks);
    let sizes = total_sizes(own, powers);
    SetOutline {
        heads,
        marks,
        powers,
        sizes,
    }
}
