// The plan call on whole coefficients: refusals, head, lists and steps; and the sizes of a plan before its curve is there.
#![tactic(auto)]

pub mod call;
pub mod head;
pub mod input;
pub mod outline;
pub mod powers;
pub mod sizes;
pub mod step;
pub mod tree;
pub mod write;

pub use call::plan;
pub use counts::{Settings, SplitStrategy};
pub use number::{Basis, Parity, PolynomialInputTransform, Refusal};
pub use sizes::{Sizes, plan_sizes};
pub use walk::Head;
