// The public calls for C (include/firrozun.h). A kind goes by its number, and an unknown number is refusal 43. None asks anything of its caller.
#![tactic(auto)]

pub mod curve_sets;
pub mod degrees;
pub mod layout;
pub mod listing;
pub mod planning;
pub mod rebuilding;
pub mod values;
