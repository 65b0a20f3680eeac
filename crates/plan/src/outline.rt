// A plan as far as degree and settings decide: its split, and how many powers, coefficients, lists and steps it has.
ghost use Rattle.std.specs.Prelude.{◌≡◌, suc, ◌≤◌, ◌<◌, ◌^◌, eqb};
ghost use Rattle.number.specs.Limits.{plan_limit, count_limit};
ghost use Rattle.number.specs.Refusal.{first_refusal};
ghost use Rattle.number.specs.inside.Between.{Between};
ghost use Rattle.lists.specs.Tree.{tree_of};
ghost use Rattle.lists.specs.inside.Listing.{Ranges};
ghost use Rattle.plan.specs.PlanCall.{planned_parity, settings_tests};
ghost use Rattle.plan.specs.PlanSizes.{degree_to_plan, step_count};
ghost use Rattle.plan.specs.inside.Outlines.{totals_of, low_totals, outline_for};

use super::input::{planned_count, planned_settings};
use super::sizes::Sizes;
use counts::{Settings, allowed_to, split_for_strategy};
use lists::{listed_again, low_lists, relists, smaller_split};
use needed::Slicing;
use number::{Parity, power_of_two, top_power};

// How many lists, the allowed powers from 1 up over all of them, and the length of the last.
#[derive(Clone, Copy)]
pub struct Totals {
    pub lists: usize,
    pub pt: usize,
    pub last: usize,
}

impl Totals {
    // Says whether the last list is a constant alone, which is the rule of kind 4.
    pub fn last_plain(self) -> bool
        ensures { result ≡ eqb self.last 1 }
    {
        self.last == 1
    }
}

// The numbers that a plan's head and steps go by.
#[derive(Clone, Copy)]
pub struct Outline {
    pub split: usize,
    pub plain: bool,
    pub powers: usize,
    pub pt: usize,
    pub coefficients: usize,
    pub lists: usize,
    pub steps: usize,
}

impl Outline {
    // Returns how long the buffers must be.
    pub fn sizes(self) -> Sizes
        ensures { result ≡ record { coefficients = self.coefficients; lists = self.lists; steps = self.steps } }
    {
        Sizes {
            coefficients: self.coefficients,
            lists: self.lists,
            steps: self.steps,
        }
    }
}

// Returns the totals of the low part of a degree from the base on.
fn total_low(parity: Parity, degree: usize, split: usize) -> Totals
    requires { (2 ^ split ≤ degree) × (degree ≤ plan_limit) }
    ensures { result ≡ low_totals parity degree split }
{
    let base = power_of_two(split);
    let lists = low_lists(degree, split);
    let each = allowed_to(parity, base - 1);
    Totals {
        lists,
        pt: lists * each,
        last: base,
    }
}

// Returns the totals of a part of a degree, at a split.
#[cycle(total_lists_total_slice)]
pub fn total_lists(
    leading: bool,
    parity: Parity,
    whole: usize,
    degree: usize,
    split: usize,
) -> Totals
    requires { Ranges whole degree split }
    ensures { result ≡ totals_of parity (tree_of leading whole degree split) (suc degree) }
{
    let base = power_of_two(split);
    if degree < base {
        return total_slice(leading, parity, whole, degree, split);
    }
    let p = top_power(degree);
    let low = total_low(parity, degree, split);
    let high = total_lists(leading, parity, whole, degree - p, split);
    Totals {
        lists: low.lists + high.lists,
        pt: low.pt + high.pt,
        last: high.last,
    }
}

// Returns those of a slice: of one list, or of those at the smaller split.
#[cycle(total_lists_total_slice)]
fn total_slice(leading: bool, parity: Parity, whole: usize, degree: usize, split: usize) -> Totals
    requires { Ranges whole degree split × (degree < 2 ^ split) }
    ensures { result ≡ totals_of parity (tree_of leading whole degree split) (suc degree) }
{
    if listed_again(leading, whole, degree, split) {
        return total_lists(leading, parity, whole, degree, smaller_split(degree));
    }
    let pt = allowed_to(parity, degree);
    Totals {
        lists: 1,
        pt,
        last: degree + 1,
    }
}

// Counts the steps: one for each power, one for each list, and a combine for each list but the first.
fn count_steps(powers: usize, lists: usize) -> usize
    requires { (powers ≤ count_limit) × Between 1 lists count_limit }
    ensures { result ≡ step_count powers lists }
{
    let combines = lists - 1;
    powers + lists + combines
}

// Returns the outline of a degree.
pub fn outline_of(settings: Settings, degree: usize) -> Outline
    requires { Between 1 degree plan_limit }
    ensures { result ≡ outline_for settings.strategy settings.parity settings.basis degree }
{
    let split = split_for_strategy(settings, degree);
    let leading = relists(settings.strategy);
    let totals = total_lists(leading, settings.parity, degree, degree, split);
    let powers = Slicing { degree, split }.count_needed(settings.parity, settings.basis);
    let plain = totals.last_plain();
    let steps = count_steps(powers, totals.lists);
    Outline {
        split,
        plain,
        powers,
        pt: totals.pt,
        coefficients: degree + 1,
        lists: totals.lists,
        steps,
    }
}

// Returns the outline of what is planned of a degree: with folding that of the fold.
pub fn planned_outline(settings: Settings, fold: bool, degree: usize) -> Outline
    requires { first_refusal (settings_tests fold settings.parity degree) ≡ 0 }
    ensures { result ≡ outline_for settings.strategy (planned_parity fold settings.parity) settings.basis (degree_to_plan fold settings.parity degree) }
{
    let count = planned_count(fold, settings.parity, degree + 1);
    outline_of(planned_settings(settings, fold), count - 1)
}
