// Chebyshev interpolation from lent nodes and values, which stand for k = n down to 1.
#![tactic(auto)]

ghost use Rattle.std.specs.Prelude.{◌≡◌, ◌<◌, ◌≤◌, length, replicate};
ghost use Rattle.number.specs.Limits.{count_limit};
ghost use Rattle.number.specs.Numbers.{float_ops, float_numbers};
ghost use Rattle.number.specs.Parity.{parity_of};
ghost use Rattle.number.specs.Refused.{refusal_of};
ghost use Rattle.number.specs.Tests.{miscounted};
ghost use Rattle.interpolation.specs.Interpolate.{add_node, add_nodes, scaled_by, scaled, inverse_of, coefficients_of};
ghost use Rattle.interpolation.specs.InterpolateCall.{interpolate_refusal, interpolated_in, InterpolateCall};
ghost use Rattle.interpolation.specs.inside.Filling.{Fillable};

use number::{Basis, COUNT_LIMIT, Interval, Parity, Refusal, change_of_basis, detect_parity};

// What interpolation makes: the number of coefficients, their parity, and the interval with its change pair.
#[derive(Clone, Copy, Debug, PartialEq)]
pub struct Interpolation {
    pub count: usize,
    pub parity: Parity,
    pub interval: Interval,
}

// Adds one node: value·T_i(node) to element i.
fn add_node(sums: &mut [f64], node: f64, value: f64)
    ensures { sums.new ≡ add_node float_ops 0 node value sums.old }
{
    let mut t_prev = 1.0;
    let mut t = node;
    for sum in sums.iter_mut() {
        *sum += value * t_prev;
        let t_next = 2.0 * node * t - t_prev;
        t_prev = t;
        t = t_next;
    }
}

// Adds each node with its value, in the order lent.
fn add_nodes(sums: &mut [f64], nodes: &[f64], values: &[f64])
    requires { length nodes.now ≡ length values.now }
    ensures { sums.new ≡ add_nodes float_ops nodes.now values.now sums.old }
{
    for (node, value) in nodes.iter().zip(values) {
        add_node(sums, *node, *value);
    }
}

// Multiplies every element by `factor`.
fn scale_by(sums: &mut [f64], factor: f64)
    ensures { sums.new ≡ scaled_by float_ops factor sums.old }
{
    for sum in sums.iter_mut() {
        *sum *= factor;
    }
}

// Divides the first element by n, and the others by half of that.
fn scale(sums: &mut [f64], n: usize)
    requires { (n ≤ count_limit) × (0 < length sums.old) }
    ensures { sums.new ≡ scaled float_ops (inverse_of n) sums.old }
{
    let inv_n = 1.0 / (n as f64);
    sums[0] *= inv_n;
    scale_by(&mut sums[1..], 2.0 * inv_n);
}

// Writes the coefficients, one for each node, and returns their parity.
fn fill(out: &mut [f64], nodes: &[f64], values: &[f64]) -> Parity
    requires { Fillable nodes.now values.now out.old }
    ensures { (result ≡ parity_of float_numbers (coefficients_of nodes.now values.now))
        × (out.new ≡ coefficients_of nodes.now values.now) }
{
    out.fill(0.0);
    add_nodes(out, nodes, values);
    scale(out, nodes.len());
    detect_parity(out)
}

// Tells whether nodes and values are unequal in number, none, or above the limit.
fn miscounted(nodes: usize, values: usize) -> bool
    ensures { result ≡ (miscounted nodes values).0 }
{
    nodes != values || (nodes == 0 || COUNT_LIMIT < nodes)
}

// Makes the call's tests in order, and returns the refusal of the first that holds.
fn check_lent(nodes: &[f64], values: &[f64], a: f64, b: f64, out: &[f64]) -> Result<(), Refusal>
    ensures { refusal_of result ≡ interpolate_refusal nodes.now values.now a b out.now }
{
    let n = nodes.len();
    if miscounted(n, values.len()) {
        return Err(Refusal::NodesMiscounted);
    }
    if !(a < b) {
        return Err(Refusal::IntervalUnordered);
    }
    if out.len() < n {
        return Err(Refusal::CoefficientsShort);
    }
    Ok(())
}

// Interpolates: writes the coefficients to the first places of `out`, and returns their number, parity and interval.
pub fn chebyshev_interpolate(
    nodes: &[f64],
    values: &[f64],
    a: f64,
    b: f64,
    out: &mut [f64],
) -> Result<Interpolation, Refusal>
    ensures { InterpolateCall nodes.now values.now a b out.old (interpolated_in result) out.new }
{
    check_lent(nodes, values, a, b, out)?;
    let n = nodes.len();
    let parity = fill(&mut out[..n], nodes, values);
    Ok(Interpolation {
        count: n,
        parity,
        interval: change_of_basis(Basis::Chebyshev, a, b),
    })
}
