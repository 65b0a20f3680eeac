// Replays recorded decompositions and rebuilds: each line of standard input has one call with its recorded answer, and ours is compared
// with it. Whole lists of the Rust are also rebuilt, and must give the line's coefficients back. Writes the number of each line that does
// not agree, and how many do.
#![tactic(auto)]

mod float;
mod head;
mod rebuilt;
mod whole;

use float::{decompose_agrees, decompose_folded_agrees};
use rebuilt::rebuild_agrees;
use recording::Fields;
use std::io;
use whole::decompose_whole_agrees;

// Agrees if our call answers as the line says.
fn agrees(mut fields: Fields) -> Option<()> {
    match fields.next()? {
        b"decompose" => decompose_agrees(fields),
        b"decompose_whole" => decompose_whole_agrees(fields),
        b"decompose_folded" => decompose_folded_agrees(fields),
        b"rebuild" => rebuild_agrees(fields),
        _ => None,
    }
}

fn main(rt: HostRuntime) -> io::Result<()> {
    recording::replay(&rt, &mut rt.stdin(), agrees)
}
