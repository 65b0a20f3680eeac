// The members of a set as structs of numbers, and the members that they mean.
ghost use Rattle.std.specs.Prelude.{◌≡◌};
ghost use Rattle.flat.specs.Sets.{member_meant, members_meant, knows_member, knows_members};
ghost use Rattle.flat.specs.Reads.{Reads};

use super::kinds::{basis_of, fold_of, parity_of, read_fold, settings_of, strategy_of};
use firrozun::{MEMBERS, Member, Members, Refusal};

// A curve's settings by their numbers, the bounds of its interval, and how many coefficients it has.
#[repr(C)]
#[derive(Clone, Copy)]
pub struct CMember {
    pub strategy: u8,
    pub parity: u8,
    pub basis: u8,
    pub fold: u8,
    pub a: f64,
    pub b: f64,
    pub count: usize,
}

// The first `count` of these are the members, in order.
#[repr(C)]
#[derive(Clone, Copy)]
pub struct CMembers {
    pub count: usize,
    pub members: [CMember; MEMBERS],
}

impl TryFrom<CMember> for Member {
    type Error = Refusal;

    ghost try_from_gives = { λ c r. Reads (knows_member c) (member_meant c) r };

    fn try_from(flat: CMember) -> Result<Self, Refusal> {
        let fold = read_fold(flat.fold)?;
        let settings = settings_of(flat.strategy, flat.parity, flat.basis)?;
        Ok(Member {
            strategy: settings.strategy,
            parity: settings.parity,
            basis: settings.basis,
            fold,
            a: flat.a,
            b: flat.b,
            count: flat.count,
        })
    }
}

// Returns the member that is meant, where an unknown kind is taken for the last one.
fn member_of(member: CMember) -> Member
    ensures { result ≡ member_meant member }
{
    Member {
        strategy: strategy_of(member.strategy),
        parity: parity_of(member.parity),
        basis: basis_of(member.basis),
        fold: fold_of(member.fold),
        a: member.a,
        b: member.b,
        count: member.count,
    }
}

// Returns the members that are meant, with what the places beyond them would mean.
pub fn members_of(handed: CMembers) -> Members
    ensures { result ≡ members_meant handed }
{
    let mut members = [member_of(handed.members[0]); MEMBERS];
    // By index, since a proof does not know what is written through an `iter_mut`.
    for i in 1..MEMBERS {
        members[i] = member_of(handed.members[i]);
    }
    Members {
        count: handed.count,
        members,
    }
}

// The kinds of the members are read: of the first `count`, or of all 16 if the count is above 16. Those of the places beyond them are not asked for.
impl TryFrom<CMembers> for Members {
    type Error = Refusal;

    ghost try_from_gives = { λ c r. Reads (knows_members c) (members_meant c) r };

    fn try_from(handed: CMembers) -> Result<Self, Refusal> {
        for i in 0..MEMBERS.min(handed.count) {
            Member::try_from(handed.members[i])?;
        }
        Ok(members_of(handed))
    }
}
