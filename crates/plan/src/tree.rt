// The loads and combines, by recursion over degrees as the lister goes.
ghost use Rattle.std.specs.Prelude.{◌≡◌, ◌&&◌, ◌<◌, ◌^◌, eqb};
ghost use Rattle.lists.specs.Tree.{tree_of};
ghost use Rattle.walk.specs.declared.plan.Instruction.TheVariants.{Combine};
ghost use Rattle.plan.specs.inside.Writing.{TreeFits, TreePut};

use super::step::put_instruction;
use lists::{listed_again, smaller_split};
use number::{power_of_two, top_power};
use walk::plan::Instruction;

// Where a writer stands: the numbers of the next list and the next step. The buffer is handed on whole, as the contracts tell where each step stands.
#[derive(Clone, Copy)]
pub struct Place {
    pub list: usize,
    pub step: usize,
}

// Returns the combine of two parts of which the high one has so many lists: it is plain at a plain last list alone.
fn combine_of(plain: bool, lists: usize, power: usize) -> Instruction
    ensures { result ≡ Combine (plain && eqb lists 1) power }
{
    Instruction::Combine {
        plain: plain && lists == 1,
        power,
    }
}

// Writes the loads and combines of a part of a degree from a place on, and returns the place behind them.
#[cycle(write_slice_write_tree)]
pub fn write_tree(
    leading: bool,
    plain: bool,
    whole: usize,
    degree: usize,
    split: usize,
    at: Place,
    steps: &mut [u16],
) -> Place
    requires { TreeFits leading whole degree split at.list at.step steps.old }
    ensures { TreePut plain (tree_of leading whole degree split) at.list at.step steps.old result steps.new }
{
    let base = power_of_two(split);
    if degree < base {
        return write_slice(leading, plain, whole, degree, split, at, steps);
    }
    let p = top_power(degree);
    let low = write_tree(false, false, whole, p - 1, split, at, steps);
    let high = write_tree(leading, plain, whole, degree - p, split, low, steps);
    let combine = combine_of(plain, high.list - low.list, p);
    put_instruction(high.step, combine, steps);
    Place {
        list: high.list,
        step: high.step + 1,
    }
}

// Writes those of a slice: one load, or those at the smaller split.
#[cycle(write_slice_write_tree)]
fn write_slice(
    leading: bool,
    plain: bool,
    whole: usize,
    degree: usize,
    split: usize,
    at: Place,
    steps: &mut [u16],
) -> Place
    requires { TreeFits leading whole degree split at.list at.step steps.old × (degree < 2 ^ split) }
    ensures { TreePut plain (tree_of leading whole degree split) at.list at.step steps.old result steps.new }
{
    if listed_again(leading, whole, degree, split) {
        let smaller = smaller_split(degree);
        return write_tree(leading, plain, whole, degree, smaller, at, steps);
    }
    put_instruction(at.step, Instruction::Load(at.list), steps);
    Place {
        list: at.list + 1,
        step: at.step + 1,
    }
}
