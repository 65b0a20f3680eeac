// The members of a set as they are handed in.
ghost use Rattle.std.specs.Prelude.{◌≡◌, not, ltb};
ghost use Rattle.sets.specs.Members.{alike, all_alike, members_in, handed_count};

use counts::{Settings, SplitStrategy};
use number::{Basis, Parity};

// The most members of a set.
pub const MEMBERS: usize = 16;

// A curve's settings, the bounds of its interval, and how many coefficients it has.
#[derive(Clone, Copy)]
pub struct Member {
    pub strategy: SplitStrategy,
    pub parity: Parity,
    pub basis: Basis,
    pub fold: bool,
    pub a: f64,
    pub b: f64,
    pub count: usize,
}

// The first `count` of these are the members, in order. Their coefficients stand one after another in one slice.
#[derive(Clone, Copy)]
pub struct Members {
    pub count: usize,
    pub members: [Member; MEMBERS],
}

impl Member {
    // Returns the member's settings.
    pub fn settings(&self) -> Settings
        ensures { result ≡ record { strategy = self.now.strategy; parity = self.now.parity; basis = self.now.basis } }
    {
        Settings {
            strategy: self.strategy,
            parity: self.parity,
            basis: self.basis,
        }
    }
}

impl Members {
    // Returns the members: all places of the array if the count is above 16.
    pub fn list(&self) -> &[Member]
        ensures { result.now ≡ members_in self.now }
    {
        &self.members[..self.count.min(MEMBERS)]
    }
}

// Says whether two members have the settings that a set has in common: basis, fold setting and, when folded, parity.
#[tactic(auto, unfolding(crate::specs::Members::alike))]
pub fn member_alike(one: &Member, other: &Member) -> bool
    ensures { result ≡ alike one.now other.now }
{
    one.basis == other.basis
        && if one.fold {
            other.fold && one.parity == other.parity
        } else {
            !other.fold
        }
}

// Says whether all members have them in common with the first.
pub fn members_alike(members: &[Member]) -> bool
    ensures { result ≡ all_alike members.now }
{
    let Some((first, others)) = members.split_first() else {
        return true;
    };
    for member in others {
        if !member_alike(first, member) {
            return false;
        }
    }
    true
}

// Says whether the members' coefficients are within a slice of so many places.
pub fn lengths_fit(members: &[Member], slice: usize) -> bool
    ensures { result ≡ not (ltb slice (handed_count members.now)) }
{
    let mut left = slice;
    for member in members {
        if left < member.count {
            return false;
        }
        left -= member.count;
    }
    true
}
