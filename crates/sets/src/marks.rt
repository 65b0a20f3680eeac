// The powers that members need, as marks: place n is true where one of them needs power n. The heads are lent from the public record's array, and each
// function asks that they fit: a struct around a lent slice would be no plainer.
ghost use Rattle.std.specs.Prelude.{◌≡◌, ◌≤◌, length};
ghost use Rattle.number.specs.Limits.{plan_limit, count_limit};
ghost use Rattle.sets.specs.inside.Heads.{HeadFits, HeadsFit, SameBasis, PowersTo};
ghost use Rattle.sets.specs.inside.Marking.{PlacesAdded, TargetsAdded, TargetsUpto, Common, PowersCounted};

use super::own::own_slicing;
use needed::marks::{is_target, mark, sweep};
use needed::{MARKS, count_marks};
use number::{Basis, Parity, top_power};
use walk::Head;

// Marks the powers below the limit that are needed at once.
fn add_places(parity: Parity, top: usize, limit: usize, marks: &mut [bool; MARKS])
    requires { (limit ≤ count_limit) × (length marks.old ≡ count_limit) }
    ensures { PlacesAdded parity top limit limit marks.old marks.new }
{
    for n in 0..limit {
        if is_target(parity, top, limit, n) {
            marks[n] = true;
        }
    }
}

// Marks the powers that a member needs at once: those below the limit, and the top power.
fn add_targets(head: &Head, marks: &mut [bool; MARKS])
    requires { HeadFits head.now × (length marks.old ≡ count_limit) }
    ensures { TargetsAdded head.now marks.old marks.new }
{
    let top = top_power(head.degree);
    let limit = own_slicing(head).baby_limit();
    add_places(head.parity, top, limit, marks);
    mark(top, marks);
}

// Returns the marks of the powers that one of the members needs at once.
fn common_targets(heads: &[Head]) -> [bool; MARKS]
    requires { HeadsFit heads.now }
    ensures { TargetsUpto heads.now (length heads.now) result }
{
    let mut marks = [false; MARKS];
    for head in heads {
        add_targets(head, &mut marks);
    }
    marks
}

// Returns the greatest power that one of the members may need, or 0 if there is no member.
pub fn greatest_power(heads: &[Head]) -> usize
    requires { HeadsFit heads.now }
    ensures { PowersTo result heads.now × (result ≤ plan_limit) }
{
    let mut greatest = 0;
    for head in heads {
        greatest = greatest.max(own_slicing(head).greatest_target());
    }
    greatest
}

// Returns the marks of the common powers of members of one basis: what each needs at once, swept once for all of them.
pub fn common_marks(basis: Basis, heads: &[Head]) -> [bool; MARKS]
    requires { HeadsFit heads.now × SameBasis basis heads.now }
    ensures { Common heads.now result }
{
    let mut marks = common_targets(heads);
    sweep(basis, greatest_power(heads), &mut marks);
    marks
}

// Counts the common powers of the members by their marks. None is above the greatest that one may need.
pub fn count_common(heads: &[Head], marks: &[bool; MARKS]) -> usize
    requires { HeadsFit heads.now × Common heads.now marks.now }
    ensures { PowersCounted heads.now result }
{
    count_marks(*marks, greatest_power(heads) + 1)
}
