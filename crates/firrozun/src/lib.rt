// The public calls and their types, and nothing else. None asks anything of its caller; each answers a refusal for what it refuses.
#![tactic(auto)]

pub use conversion::convert_coeffs;
pub use counts::{
    Pair, Settings, SplitStrategy, bsgs_consumed_bits, bsgs_eval_depth, bsgs_op_counts,
    largest_degree, min_depth_split, min_mult_split,
};
pub use interpolation::{Interpolation, chebyshev_interpolate};
pub use lists::{Listing, decompose_bsgs};
pub use number::{
    Basis, Fold, Interval, Parity, PolynomialInputTransform, Refusal, Split, UnknownKind,
    change_of_basis, detect_parity, evaluate_coeffs, fold_parity, split_degree,
};
pub use plan::{Sizes, plan, plan_sizes};
pub use rebuild::rebuild;
pub use set_plan::{plan_set, set_sizes};
pub use sets::{CurveSet, MEMBERS, Member, Members};
pub use walk::{Head, heaviest_chain, trial_walk};
