// What an accepted call writes: the planned coefficients, listed in place, and the steps.
ghost use Rattle.std.specs.Prelude.{◌≡◌};
ghost use Rattle.std.proofs.lemmas.List.Edits.{sets};
ghost use Rattle.lists.specs.Tree.{relists};
ghost use Rattle.walk.specs.WalksHeld.{flat};
ghost use Rattle.plan.specs.PlanSteps.{steps_at};
ghost use Rattle.plan.specs.PlanCall.{planned_coefficients};
ghost use Rattle.plan.specs.inside.Writing.{StepsFit};
ghost use Rattle.plan.specs.inside.Filling.{CoefficientsFit, ListsFit, ListsPut, PlanFits, PlanPut};

use super::input::planned_settings;
use super::outline::Outline;
use super::powers::write_powers;
use super::tree::{Place, write_tree};
use counts::Settings;
use lists::{list_coeffs, relists};
use needed::Slicing;
use number::{Basis, Parity, copy_coeffs, fold_into};

// Writes the planned coefficients to the front of a buffer.
fn place_coeffs(fold: bool, parity: Parity, basis: Basis, c: &[i64], out: &mut [i64])
    requires { CoefficientsFit fold parity c.now out.old }
    ensures { out.new ≡ sets out.old 0 (planned_coefficients fold parity basis c.now) }
{
    if fold {
        fold_into(parity, basis, c, out);
    } else {
        copy_coeffs(c, out);
    }
}

// Writes the lists of `count` planned coefficients to the front of `out`, and their boundaries from boundary `list` on. The plan call has count and split
// from an outline and the set call from a head, so they are parameters of their own.
pub fn write_lists(
    settings: Settings,
    fold: bool,
    count: usize,
    split: usize,
    list: usize,
    c: &[i64],
    out: &mut [i64],
    bounds: &mut [u16],
)
    requires { ListsFit settings.strategy settings.parity settings.basis fold count split list c.now out.old bounds.old }
    ensures { ListsPut settings.strategy settings.parity settings.basis fold list c.now out.old bounds.old
        out.new bounds.new }
{
    place_coeffs(fold, settings.parity, settings.basis, c, out);
    let leading = relists(settings.strategy);
    let degree = count - 1;
    list_coeffs(
        leading,
        settings.basis,
        degree,
        split,
        0,
        list,
        &mut out[..count],
        bounds,
    );
}

// Writes all steps of a degree.
fn write_steps(settings: Settings, degree: usize, outline: Outline, steps: &mut [u16])
    requires { StepsFit (relists settings.strategy) outline.plain settings.parity settings.basis degree outline.split steps.old }
    ensures { steps.new ≡ sets steps.old 0 (flat (steps_at (relists settings.strategy) settings.parity settings.basis degree outline.split)) }
{
    let split = outline.split;
    let slicing = Slicing { degree, split };
    let step = write_powers(slicing, settings.parity, settings.basis, steps);
    write_tree(
        relists(settings.strategy),
        outline.plain,
        degree,
        degree,
        split,
        Place { list: 0, step },
        steps,
    );
}

// Writes a plan that has this outline to the three buffers.
pub fn fill(
    settings: Settings,
    fold: bool,
    outline: Outline,
    c: &[i64],
    out: &mut [i64],
    bounds: &mut [u16],
    steps: &mut [u16],
)
    requires { PlanFits settings.strategy settings.parity settings.basis fold outline.coefficients outline c.now out.old bounds.old steps.old }
    ensures { PlanPut settings.strategy settings.parity settings.basis fold c.now out.old bounds.old steps.old
        out.new bounds.new steps.new }
{
    let count = outline.coefficients;
    write_lists(settings, fold, count, outline.split, 0, c, out, bounds);
    let planned = planned_settings(settings, fold);
    write_steps(planned, count - 1, outline, steps);
}
