// The answers to lines of planlines, and to the lines of an input that comes in parts.
#![tactic(auto)]

pub mod answer;
pub mod hold;
pub mod limits;
pub mod turn;

pub use answer::put_answer;
pub use limits::{COEFFICIENT_ROOM, LINE_ROOM, LIST_ROOM, STEP_ROOM, TEXT_LIMIT, TEXT_ROOM};
pub use turn::{Turn, put_end, take_turn};
