// Replays recorded calls of the Rust on a bare degree: split choices, counts, depth and bits; and the largest degree for a budget, by the Rust's
// bits. Each line of standard input has one call with its answer, and our answer is compared with it. Writes the number of each line that
// does not agree, and how many do.
#![tactic(auto)]

mod budget;
mod choice;
mod depth;

use budget::largest_degree_agrees;
use choice::{bsgs_op_counts_agrees, min_depth_split_agrees, min_mult_split_agrees};
use depth::{bsgs_consumed_bits_agrees, bsgs_eval_depth_agrees};
use recording::Fields;
use std::io;

// Agrees if our call answers as the line says.
fn agrees(mut fields: Fields) -> Option<()> {
    match fields.next()? {
        b"min_depth_split" => min_depth_split_agrees(fields),
        b"min_mult_split" => min_mult_split_agrees(fields),
        b"bsgs_op_counts" => bsgs_op_counts_agrees(fields),
        b"bsgs_eval_depth" => bsgs_eval_depth_agrees(fields),
        b"bsgs_consumed_bits" => bsgs_consumed_bits_agrees(fields),
        b"largest_degree" => largest_degree_agrees(fields),
        _ => None,
    }
}

fn main(rt: HostRuntime) -> io::Result<()> {
    recording::replay(&rt, &mut rt.stdin(), agrees)
}
