// Plans and refusals as lines of text, in a lent buffer.
#![tactic(auto)]

pub mod decimal;
pub mod fields;
pub mod line;
pub mod plan;

pub use line::put_refusal;
pub use plan::put_plan;
