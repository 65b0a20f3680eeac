// A whole polynomial up to degree 20, written in the other basis.
#![tactic(auto)]

pub mod call;
pub mod rows;
pub mod sums;
pub mod whole;

pub use call::{CONVERT_LIMIT, convert_coeffs};
