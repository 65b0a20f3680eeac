// The power steps: one for each needed power, rising.
ghost use Rattle.std.specs.Prelude.{◌*◌, ◌≤◌, length};
ghost use Rattle.needed.specs.NeededList.{needed_count};
ghost use Rattle.plan.specs.inside.Writing.{PowerFits, PowerPut, MarksFit, MarksPut, PowersPut, TwoPowersFit, TwoPowersPut};

use super::step::put_instruction;
use needed::Slicing;
use number::{Basis, Parity, bit_len, parts_of, power_of_two};
use walk::plan::Instruction;

// Writes the step that makes power n as step `step`, if the power is marked, and returns the next step.
pub fn put_power(marked: bool, n: usize, step: usize, steps: &mut [u16]) -> usize
    requires { PowerFits marked n step steps.old }
    ensures { PowerPut marked n step steps.old result steps.new }
{
    if !marked {
        return step;
    }
    let parts = parts_of(n);
    let make = Instruction::Make {
        n,
        a: parts.a,
        b: parts.b,
    };
    put_instruction(step, make, steps);
    step + 1
}

// Writes the power steps of the marked powers, rising, and returns how many there are.
pub fn write_marks(marks: &[bool], steps: &mut [u16]) -> usize
    requires { MarksFit marks.now steps.old }
    ensures { MarksPut marks.now steps.old result steps.new }
{
    let mut step = 0;
    for (n, marked) in marks.iter().enumerate() {
        step = put_power(*marked, n, step, steps);
    }
    step
}

// Writes the power steps of a degree at a split, by the marks of the needed powers, and returns how many there are.
fn write_marked(slicing: Slicing, parity: Parity, basis: Basis, steps: &mut [u16]) -> usize
    requires { 4 * needed_count parity basis slicing.degree slicing.split ≤ length steps.old }
    ensures { PowersPut parity basis slicing.degree slicing.split steps.old result steps.new }
{
    let marks = slicing.needed_marks(parity, basis);
    write_marks(&marks[..slicing.degree + 1], steps)
}

// Writes the steps that make the powers of two from the base on, of at most so many binary digits, from step `step` on, and returns the next step.
fn write_two_powers(split: usize, digits: usize, step: usize, steps: &mut [u16]) -> usize
    requires { TwoPowersFit split digits step steps.old }
    ensures { TwoPowersPut split digits step steps.old result steps.new }
{
    let mut next = step;
    for k in split..digits {
        next = put_power(true, power_of_two(k), next, steps);
    }
    next
}

// Writes the power steps of a degree at a split: from the base on those of base - 1, and the powers of two from the base on. Returns how many there are.
pub fn write_powers(slicing: Slicing, parity: Parity, basis: Basis, steps: &mut [u16]) -> usize
    requires { 4 * needed_count parity basis slicing.degree slicing.split ≤ length steps.old }
    ensures { PowersPut parity basis slicing.degree slicing.split steps.old result steps.new }
{
    let base = power_of_two(slicing.split);
    if slicing.degree < base {
        return write_marked(slicing, parity, basis, steps);
    }
    let below = Slicing {
        degree: base - 1,
        split: slicing.split,
    };
    let step = write_marked(below, parity, basis, steps);
    write_two_powers(slicing.split, bit_len(slicing.degree), step, steps)
}
