// Holding the members' heads against the recording, and against the members' own settings and intervals.
use firrozun::{
    Basis, Head, Interval, MEMBERS, Member, Members, Parity, PolynomialInputTransform,
    SplitStrategy, change_of_basis,
};
use recording::{Fields, agree, same};

// Tells whether two intervals have the same four numbers, bit by bit.
fn same_interval(one: Interval, other: Interval) -> bool {
    let bounds = same(one.a, other.a) && same(one.b, other.b);
    bounds && same(one.u, other.u) && same(one.w, other.w)
}

// Tells whether every field of a head is zero, and each enum has its first value.
fn is_zero(head: &Head) -> bool {
    let kinds = head.basis == Basis::Monomial
        && head.parity == Parity::Full
        && head.strategy == SplitStrategy::MinDepth
        && head.transform == PolynomialInputTransform::Identity;
    let costs = head.ct | head.pt | head.depth;
    let counts = head.degree | head.base | head.coefficients | head.lists | head.steps;
    kinds && costs == 0 && counts == 0 && same_interval(head.interval, Interval::default())
}

// Returns the parity that is planned: Full, when a member is folded.
fn planned_parity(member: &Member) -> Parity {
    if member.fold {
        Parity::Full
    } else {
        member.parity
    }
}

// Tells whether a head has the settings of its member, and the interval with the change pair that belongs to it.
fn has_settings(head: &Head, member: &Member) -> bool {
    let kinds = head.basis == member.basis
        && head.strategy == member.strategy
        && head.parity == planned_parity(member);
    let changed = change_of_basis(member.basis, member.a, member.b);
    kinds && same_interval(head.interval, changed)
}

// Reads a head that is ours: degree  base  transform  ct  pt  depth  coefficients  lists  steps.
fn match_head(fields: &mut Fields, head: &Head) -> Option<()> {
    fields.match_number(head.degree)?;
    fields.match_number(head.base)?;
    fields.match_number(u8::from(head.transform) as usize)?;
    fields.match_number(head.ct)?;
    fields.match_number(head.pt)?;
    fields.match_number(head.depth)?;
    fields.match_number(head.coefficients)?;
    fields.match_number(head.lists)?;
    fields.match_number(head.steps)
}

// Reads the members' heads, which are ours and have the members' settings. The heads beyond the members are zero.
pub fn match_heads(fields: &mut Fields, asked: &Members, heads: &[Head; MEMBERS]) -> Option<()> {
    let count = asked.count.min(MEMBERS);
    for (head, member) in heads[..count].iter().zip(asked.members.iter()) {
        match_head(fields, head)?;
        agree(has_settings(head, member))?;
    }
    agree(heads[count..].iter().all(is_zero))
}
