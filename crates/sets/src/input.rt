// The members' own tests, and their heads.
ghost use Rattle.std.specs.Prelude.{◌≡◌, map, ◌≤◌, length};
ghost use Rattle.number.specs.Refusal.{first_refusal};
ghost use Rattle.number.specs.Refused.{refusal_of};
ghost use Rattle.lists.specs.Lists.{joined};
ghost use Rattle.plan.specs.PlanCall.{early_tests};
ghost use Rattle.sets.specs.Members.{handed_count, curves_in};
ghost use Rattle.sets.specs.Own.{head_by};
ghost use Rattle.sets.specs.SetCall.{own_tests};
ghost use Rattle.sets.specs.inside.Planning.{SettingsPass, MembersPass, heads_by};

use super::member::{MEMBERS, Member};
use number::{Refusal, change_of_basis, degree_of};
use plan::head::{head_of, no_head};
use plan::input::check_input;
use plan::outline::planned_outline;
use walk::Head;

// Makes a member's own tests, in their order.
fn check_member(member: &Member, c: &[i64]) -> Result<(), Refusal>
    ensures { refusal_of result ≡ first_refusal (early_tests member.now.fold member.now.parity c.now member.now.a member.now.b) }
{
    check_input(member.fold, member.parity, c)?;
    if !(member.a < member.b) {
        return Err(Refusal::IntervalUnordered);
    }
    Ok(())
}

// Makes all members' own tests, in member order.
pub fn check_members(members: &[Member], c: &[i64]) -> Result<(), Refusal>
    requires { handed_count members.now ≤ length c.now }
    ensures { refusal_of result ≡ first_refusal (joined (map own_tests (curves_in members.now c.now))) }
{
    let mut rest = c;
    for member in members {
        let (own, others) = rest.split_at(member.count);
        check_member(member, own)?;
        rest = others;
    }
    Ok(())
}

// Returns a member's head, its steps counted without power steps.
pub fn member_head(member: &Member) -> Head
    requires { SettingsPass member.now }
    ensures { result ≡ head_by member.now }
{
    let settings = member.settings();
    let outline = planned_outline(settings, member.fold, degree_of(member.count));
    let interval = change_of_basis(member.basis, member.a, member.b);
    let degree = outline.coefficients - 1;
    let head = head_of(settings, member.fold, interval, degree, outline);
    Head {
        steps: outline.steps - outline.powers,
        ..head
    }
}

// Returns the heads of all members, and zero heads behind them.
pub fn set_heads(members: &[Member]) -> [Head; MEMBERS]
    requires { MembersPass members.now }
    ensures { result ≡ heads_by members.now }
{
    let mut heads = [no_head(); MEMBERS];
    for (i, member) in members.iter().enumerate() {
        heads[i] = member_head(member);
    }
    heads
}
