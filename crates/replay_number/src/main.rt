// Replays recorded calls of the Rust's number layer, and conversions to the other basis: each line of standard input has one call with its
// recorded answer, and ours is compared with it. Writes the number of each line that does not agree, and how many do.
#![tactic(auto)]

mod converted;
mod evaluate;
mod fold;
mod interpolate;
mod parity;
mod split;

use converted::convert_coeffs_agrees;
use evaluate::{change_of_basis_agrees, evaluate_agrees};
use fold::{real_fold_agrees, whole_fold_agrees};
use interpolate::interpolate_agrees;
use parity::{real_parity_agrees, whole_parity_agrees};
use recording::Fields;
use split::split_degree_agrees;
use std::io;

// Agrees if our call answers as the line says.
fn agrees(mut fields: Fields) -> Option<()> {
    match fields.next()? {
        b"split_degree" => split_degree_agrees(fields),
        b"parity" => real_parity_agrees(fields),
        b"parity_whole" => whole_parity_agrees(fields),
        b"fold_parity" => real_fold_agrees(fields),
        b"fold_parity_whole" => whole_fold_agrees(fields),
        b"convert_coeffs" => convert_coeffs_agrees(fields),
        b"evaluate" => evaluate_agrees(fields),
        b"change_of_basis" => change_of_basis_agrees(fields),
        b"interpolate" => interpolate_agrees(fields),
        _ => None,
    }
}

fn main(rt: HostRuntime) -> io::Result<()> {
    recording::replay(&rt, &mut rt.stdin(), agrees)
}
