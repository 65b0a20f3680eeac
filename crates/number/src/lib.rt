// The number layer: index splitting, factorisation, folding, evaluation.
#![tactic(auto)]

pub mod coefficient;
pub mod copy;
pub mod degree;
pub mod evaluate;
pub mod factor;
pub mod float;
pub mod fold;
pub mod interval;
pub mod limits;
pub mod magnitude;
pub mod parity;
pub mod powers;
pub mod refusal;
pub mod split;
pub mod transform;
pub mod whole;

pub use algebra::{Basis, Parity, PolynomialInputTransform, UnknownKind};
pub use coefficient::Coefficient;
pub use degree::degree_of;
pub use evaluate::evaluate_coeffs;
pub use fold::{Fold, fold_parity};
pub use interval::{Interval, change_of_basis};
pub use limits::{COUNT_LIMIT, DEGREE_LIMIT, PLAN_LIMIT, SCALE_LIMIT};
pub use magnitude::{magnitude_of, sum_fits};
pub use parity::{detect_parity, is_allowed};
pub use powers::bit_len;
pub use refusal::Refusal;
pub use split::{Split, parts_of, split_degree};
// What serves planning and conversion, which call it within its ranges.
pub use copy::copy_coeffs;
pub use factor::factorize_coeffs_chebyshev;
pub use fold::{fold_count, fold_into, is_full, least_folded};
pub use parity::has_parity;
pub use powers::{power_of_two, top_power};
pub use transform::transform_of;
