// The call that plans a set of curves, and the sizes of a set before its curves are there.
#![tactic(auto)]

pub mod call;
pub mod costs;
pub mod filling;
pub mod outline;
pub mod record;
pub mod sizes;

pub use call::plan_set;
pub use plan::Sizes;
pub use sets::{CurveSet, MEMBERS, Member, Members};
pub use sizes::set_sizes;
