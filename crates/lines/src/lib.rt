// A line of planlines: settings and whole coefficients, with tabs between them.
#![tactic(auto)]

pub mod buffer;
pub mod field;
pub mod letter;
pub mod limits;
pub mod read;
pub mod whole;

pub use buffer::store;
pub use limits::{DIGIT_LIMIT, LINE_LIMIT};
pub use read::{Line, read_line};
