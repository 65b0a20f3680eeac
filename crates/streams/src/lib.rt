// Standard input and standard output at the pace of the other side: a call that a signal interrupts, or that the other side is not ready for, is made
// again. Where a call fails otherwise, the reason is said on standard error.
#![tactic(auto)]

mod input;
mod output;
mod passing;

pub use input::{BlockRead, read_block};
pub use output::write_text;
