// The coefficients of a polynomial in their places, list after list, for i64 and f64.
#![tactic(auto)]

pub mod call;
pub mod count;
pub mod list;

pub use call::Listing;
pub use counts::{Settings, SplitStrategy};
pub use list::decompose_bsgs;
pub use number::{Basis, Coefficient, Parity, Refusal};
// What serves planning, which calls it within its ranges.
pub use count::{count_lists, listed_again, low_lists, relists, smaller_split};
pub use list::list_coeffs;
