// The sizes of a set before its curves are there.
ghost use Rattle.std.specs.Prelude.{◌≡◌, map};
ghost use Rattle.number.specs.Refusal.{first_refusal};
ghost use Rattle.number.specs.Refused.{refusal_of};
ghost use Rattle.lists.specs.Lists.{joined};
ghost use Rattle.plan.specs.PlanSizes.{plan_sizes_in};
ghost use Rattle.sets.specs.SetSizes.{member_settings_tests, set_sizes_tests, set_sizes_call};

use super::outline::set_outline;
use number::{Refusal, degree_of};
use plan::Sizes;
use plan::input::check_settings;
use sets::member::members_alike;
use sets::{MEMBERS, Member, Members};

// Makes the tests of the members' degrees and settings, in member order.
fn check_all_settings(members: &[Member]) -> Result<(), Refusal>
    ensures { refusal_of result ≡ first_refusal (joined (map member_settings_tests members.now)) }
{
    for member in members {
        check_settings(member.fold, member.parity, degree_of(member.count))?;
    }
    Ok(())
}

// Makes the tests of the sizes, in their order.
fn check_sizes(handed: &Members) -> Result<(), Refusal>
    ensures { refusal_of result ≡ first_refusal (set_sizes_tests handed.now) }
{
    if handed.count == 0 || MEMBERS < handed.count {
        return Err(Refusal::MembersMiscounted);
    }
    let members = handed.list();
    if !members_alike(members) {
        return Err(Refusal::MembersUnlike);
    }
    check_all_settings(members)
}

// Returns the sizes of every set that is planned with these settings and lengths: how many coefficients, lists and steps it has, the common power steps
// counted once. The set call takes its own from the same outline.
pub fn set_sizes(members: Members) -> Result<Sizes, Refusal>
    ensures { plan_sizes_in result ≡ set_sizes_call members }
{
    check_sizes(&members)?;
    Ok(set_outline(members.list()).sizes)
}
