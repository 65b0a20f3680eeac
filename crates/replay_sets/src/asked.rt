// Reading what a call asks: the members of a set.
use firrozun::{Basis, MEMBERS, Member, Members, Parity, SplitStrategy};
use recording::Fields;

// This member stands in the places beyond the count. A call that takes it for a member refuses the set.
const WRONG: Member = Member {
    strategy: SplitStrategy::MinMult,
    parity: Parity::Full,
    basis: Basis::Chebyshev,
    fold: true,
    a: 1.0,
    b: -1.0,
    count: usize::MAX,
};

// Reads basis  parity  strategy  fold  a  b  length.
fn read_member(fields: &mut Fields) -> Option<Member> {
    let settings = fields.settings()?;
    Some(Member {
        strategy: settings.strategy,
        parity: settings.parity,
        basis: settings.basis,
        fold: fields.fold()?,
        a: fields.real()?,
        b: fields.real()?,
        count: fields.count()?,
    })
}

// Reads count  members. The line has as many members as the count says, but at most 16.
pub fn read_members(fields: &mut Fields) -> Option<Members> {
    let count = fields.count()?;
    let mut members = [WRONG; MEMBERS];
    for member in members[..count.min(MEMBERS)].iter_mut() {
        *member = read_member(fields)?;
    }
    Some(Members { count, members })
}
