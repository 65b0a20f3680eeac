// The choice of the split, the counts of multiplications, depth and bits, and the largest degree for a budget of bits.
#![tactic(auto)]

pub mod bound;
pub mod budget;
pub mod choice;
pub mod consumed;
pub mod depth;
pub mod kind;
pub mod pair;
pub mod settings;
pub mod slices;

pub use budget::largest_degree;
pub use choice::{SplitStrategy, bsgs_op_counts, min_depth_split, min_mult_split};
pub use consumed::bsgs_consumed_bits;
pub use depth::bsgs_eval_depth;
pub use settings::Settings;
// What serves planning, which calls it within its ranges.
pub use choice::{min_depth_of, split_for_strategy};
pub use depth::depth_from_one;
pub use pair::{Pair, estimate_op_counts};
pub use slices::allowed_to;
