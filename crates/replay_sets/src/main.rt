// Replays calls that plan sets of curves, and calls for the sizes of such sets (oracle/README.md). Of each planned set every number of the answer, the
// members' heads and the filled places of the buffers are compared, and the places that are not filled must be unchanged. Writes the number of each line
// that does not agree, and how many do.
#![tactic(auto)]

mod asked;
mod heads;
mod planned;
mod sizes;

use planned::plan_set_agrees;
use recording::Fields;
use sizes::set_sizes_agrees;
use std::io;

// Agrees if our call answers as the line says.
fn agrees(mut fields: Fields) -> Option<()> {
    match fields.next()? {
        b"plan_set" => plan_set_agrees(fields),
        b"set_sizes" => set_sizes_agrees(fields),
        _ => None,
    }
}

fn main(rt: HostRuntime) -> io::Result<()> {
    recording::replay(&rt, &mut rt.stdin(), agrees)
}
