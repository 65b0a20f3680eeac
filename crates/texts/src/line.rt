// The lines of a plan one by one, and the line of a refusal.
ghost use Rattle.std.specs.Prelude.{◌≡◌, [], ◌-◌, ◌/◌, ◌<◌, ◌^◌, length, get_or, take, drop};
ghost use Rattle.walk.specs.Boundaries.{start_of, part_of};
ghost use Rattle.walk.specs.Lent.{step_at};
ghost use Rattle.texts.specs.Text.{list_line, refusal_line};
ghost use Rattle.texts.specs.PlanText.{head_line, step_line, lines_of, lists_in, shown_steps};
ghost use Rattle.texts.specs.Put.{Put};

use crate::fields::{put_list_line, put_numbers_line};
use walk::Head;

// Puts the line of the head, and returns the place behind it.
fn put_head(out: &mut [u8], at: usize, head: Head) -> usize
    requires { at < 2 ^ 63 }
    ensures { Put out.old at (head_line head) out.new result }
{
    let ns: [u64; 6] = [
        head.degree as u64,
        head.base as u64,
        u64::from(u8::from(head.transform)),
        head.ct as u64,
        head.pt as u64,
        head.depth as u64,
    ];
    put_numbers_line(out, at, b'H', &ns)
}

// Puts the line of the refusal with this number, which may be any, and returns the place behind it.
pub fn put_refusal(refusal: u8, at: usize, out: &mut [u8]) -> usize
    requires { at < 2 ^ 63 }
    ensures { Put out.old at (refusal_line refusal) out.new result }
{
    let ns = [u64::from(refusal)];
    put_numbers_line(out, at, b'R', &ns)
}

// Puts the line of a step, and returns the place behind it.
fn put_step(out: &mut [u8], at: usize, kind: u16, x: u16, y: u16, z: u16) -> usize
    requires { at < 2 ^ 63 }
    ensures { Put out.old at (step_line (record { kind = kind; x = x; y = y; z = z })) out.new result }
{
    let three = [u64::from(x), u64::from(y), u64::from(z)];
    let one = [u64::from(x)];
    match kind {
        1 => put_numbers_line(out, at, b'P', &three),
        2 => put_numbers_line(out, at, b'B', &one),
        3 => put_numbers_line(out, at, b'G', &one),
        _ => put_numbers_line(out, at, b'Q', &one),
    }
}

// Puts the line of step j of a buffer, and returns the place behind it.
fn put_step_at(out: &mut [u8], at: usize, steps: &[u16], j: usize) -> usize
    requires { (at < 2 ^ 63) × (j < length steps.now / 4) }
    ensures { Put out.old at (step_line (step_at steps.now j)) out.new result }
{
    let s = 4 * j;
    put_step(out, at, steps[s], steps[s + 1], steps[s + 2], steps[s + 3])
}

// The places from `from` up to `to`, as far as the list has them.
pub fn part_between(c: &[i64], from: usize, to: usize) -> &[i64]
    ensures { result.now ≡ take (to - from) (drop from c.now) }
{
    let end = to.min(c.len());
    let start = from.min(end);
    &c[start..end]
}

// Where list i starts.
fn list_start(bounds: &[u16], i: usize) -> usize
    requires { i < length bounds.now }
    ensures { result ≡ start_of bounds.now i }
{
    if i == 0 {
        0
    } else {
        usize::from(bounds[i - 1])
    }
}

// Puts the line of list i, and returns the place behind it.
fn put_list(out: &mut [u8], at: usize, c: &[i64], bounds: &[u16], i: usize) -> usize
    requires { (at < 2 ^ 63) × (i < length bounds.now) }
    ensures { Put out.old at (list_line (part_of c.now bounds.now i)) out.new result }
{
    let start = list_start(bounds, i);
    let end = usize::from(bounds[i]);
    put_list_line(out, at, part_between(c, start, end))
}

// Puts line k of a plan with a list for each boundary, and returns the place behind it: the same place behind the last line.
pub fn put_line(
    out: &mut [u8],
    at: usize,
    head: Head,
    c: &[i64],
    bounds: &[u16],
    steps: &[u16],
    k: usize,
) -> usize
    requires { at < 2 ^ 63 }
    ensures { Put out.old at
        (get_or (lines_of head (lists_in c.now bounds.now) (shown_steps head steps.now)) k []) out.new result }
{
    if k == 0 {
        return put_head(out, at, head);
    }
    let i = k - 1;
    if i < bounds.len() {
        return put_list(out, at, c, bounds, i);
    }
    let j = i - bounds.len();
    let shown = (steps.len() / 4).min(head.steps);
    if j < shown {
        return put_step_at(out, at, steps, j);
    }
    at
}
