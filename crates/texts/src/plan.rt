// The text of a plan.
ghost use Rattle.std.specs.Prelude.{◌≡◌, ◌+◌, ◌/◌, ◌<◌, ◌^◌, min, length, take};
ghost use Rattle.lists.specs.Lists.{joined};
ghost use Rattle.texts.specs.PlanText.{lines_of, lists_in, shown_steps, plan_text};
ghost use Rattle.texts.specs.Put.{Put};

use crate::line::{part_between, put_line};
use walk::Head;

// How many lines there are with a list for each boundary: one for the head, one for each list, one for each step.
fn line_count(head: Head, bounds: &[u16], steps: &[u16]) -> usize
    ensures { result ≡ length bounds.now + min (length steps.now / 4) head.steps + 1 }
{
    bounds.len() + (steps.len() / 4).min(head.steps) + 1
}

// The first n boundaries, or all.
fn first_bounds(bounds: &[u16], n: usize) -> &[u16]
    ensures { result.now ≡ take n bounds.now }
{
    &bounds[..n.min(bounds.len())]
}

// Puts the lines of a plan with a list for each boundary, and returns the place behind them.
fn put_lines(
    out: &mut [u8],
    from: usize,
    head: Head,
    c: &[i64],
    bounds: &[u16],
    steps: &[u16],
) -> usize
    requires { from + length (joined (lines_of head (lists_in c.now bounds.now) (shown_steps head steps.now))) < 2 ^ 63 }
    ensures { Put out.old from
        (joined (lines_of head (lists_in c.now bounds.now) (shown_steps head steps.now))) out.new result }
{
    let count = line_count(head, bounds, steps);
    let mut at = from;
    for k in 0..count {
        at = put_line(out, at, head, c, bounds, steps, k);
    }
    at
}

// Puts the text of a plan, and returns the place behind it.
pub fn put_plan(
    head: Head,
    coefficients: &[i64],
    bounds: &[u16],
    steps: &[u16],
    at: usize,
    out: &mut [u8],
) -> usize
    requires { at + length (plan_text head coefficients.now bounds.now steps.now) < 2 ^ 63 }
    ensures { Put out.old at (plan_text head coefficients.now bounds.now steps.now)
        out.new result }
{
    let c = part_between(coefficients, 0, head.coefficients);
    let listed = first_bounds(bounds, head.lists);
    put_lines(out, at, head, c, listed, steps)
}
