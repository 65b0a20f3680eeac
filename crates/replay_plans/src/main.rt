// Replays plans and trial walks: folded decompositions and intervals of the Rust, values worked out by exact arithmetic, and refusals and lent plans
// written by hand (oracle/README.md). Of each plan the sizes that degree and settings alone decide are asked too. Writes the number of each line that
// does not agree, and how many do.
#![tactic(auto)]

mod folded;
mod interval;
mod lent;
mod refusal;
mod sizes;
mod value;

use folded::decompose_folded_agrees;
use interval::plan_interval_agrees;
use lent::trial_walk_agrees;
use recording::Fields;
use refusal::plan_refused_agrees;
use std::io;
use value::plan_value_agrees;

// Agrees if our call answers as the line says.
fn agrees(mut fields: Fields) -> Option<()> {
    match fields.next()? {
        b"decompose_folded_whole" => decompose_folded_agrees(fields),
        b"plan_value" => plan_value_agrees(fields),
        b"plan_refused" => plan_refused_agrees(fields),
        b"plan_interval" => plan_interval_agrees(fields),
        b"trial_walk" => trial_walk_agrees(fields),
        _ => None,
    }
}

fn main(rt: HostRuntime) -> io::Result<()> {
    recording::replay(&rt, &mut rt.stdin(), agrees)
}
