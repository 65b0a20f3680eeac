// The powers that an evaluation needs, for planning inside.
#![tactic(auto)]

pub mod marks;
pub mod slicing;

pub use marks::{MARKS, count_marks};
pub use slicing::Slicing;
