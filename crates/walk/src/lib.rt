// What reads a lent plan: the trial walk, which runs its steps modulo a lent modulus, and the heaviest chain, which runs them over weights.
#![tactic(auto)]

pub mod arithmetic;
pub mod call;
pub mod chain;
pub mod limits;
pub mod make;
pub mod plan;
pub mod powers;
pub mod remainder;
pub mod steps;
pub mod sums;
pub mod transform;
pub mod waiting;
pub mod weights;

pub use call::trial_walk;
pub use chain::heaviest_chain;
pub use plan::{Head, Step};
