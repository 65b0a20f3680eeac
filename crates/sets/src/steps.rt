// All steps of a set: the common power steps, and then the loads and combines of each member.
ghost use Rattle.std.specs.Prelude.{◌≡◌, ◌+◌, ◌*◌, length};
ghost use Rattle.std.proofs.lemmas.List.Edits.{sets};
ghost use Rattle.walk.specs.WalksHeld.{flat};
ghost use Rattle.sets.specs.SetPlan.{member_steps, set_steps};
ghost use Rattle.sets.specs.inside.Writing.{OwnFits, OwnPut, MembersFit, SetStepsFit};

use super::marks::greatest_power;
use super::own::{own_slicing, own_totals};
use lists::relists;
use needed::MARKS;
use plan::powers::write_marks;
use plan::tree::{Place, write_tree};
use walk::Head;

// Writes the loads and combines of a member from step `step` on, and returns the next step.
fn write_own(head: &Head, step: usize, steps: &mut [u16]) -> usize
    requires { OwnFits head.now step steps.old }
    ensures { OwnPut head.now step steps.old result steps.new }
{
    let leading = relists(head.strategy);
    let plain = own_totals(head).last_plain();
    let degree = head.degree;
    let split = own_slicing(head).split;
    let at = Place { list: 0, step };
    write_tree(leading, plain, degree, degree, split, at, steps).step
}

// Writes those of all members from step `step` on, one member's after another's, and returns the next step.
pub fn write_members(heads: &[Head], step: usize, steps: &mut [u16]) -> usize
    requires { MembersFit heads.now step steps.old }
    ensures { (steps.new ≡ sets steps.old (4 * step) (flat (member_steps heads.now)))
        × (result ≡ step + length (member_steps heads.now)) }
{
    let mut next = step;
    for head in heads {
        next = write_own(head, next, steps);
    }
    next
}

// Writes the steps of members as a set, whose common powers are marked.
pub fn write_set(heads: &[Head], marks: &[bool; MARKS], steps: &mut [u16])
    requires { SetStepsFit heads.now marks.now steps.old }
    ensures { steps.new ≡ sets steps.old 0 (flat (set_steps heads.now)) }
{
    let last = greatest_power(heads);
    let powers = write_marks(&marks[..last + 1], steps);
    write_members(heads, powers, steps);
}
