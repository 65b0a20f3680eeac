// Reads the oracle's recordings: one call a line, its fields parted by tabs (oracle/README.md), and counts the calls that agree with what is recorded.
// A reader of a field answers None where the field is not in its form. All of this serves tests alone, so the contracts say only that it is safe.
#![tactic(auto)]

mod field;
mod list;
mod numeral;
mod replaying;
mod setting;
mod stream;

pub use field::{Fields, agree};
pub use list::{Element, are_all};
pub use numeral::same;
pub use replaying::replay;
