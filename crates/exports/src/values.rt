// The calls on coefficients below planning: folding, conversion to the other basis, evaluation, parity detection, the change of basis and interpolation.
ghost use Rattle.std.specs.Prelude.{◌≡◌};
ghost use Rattle.algebra.specs.EnumNumbers.{parity_number};
ghost use Rattle.number.specs.Numbers.{whole_numbers, float_numbers};
ghost use Rattle.number.specs.FoldCall.{folded_in};
ghost use Rattle.number.specs.Parity.{parity_of};
ghost use Rattle.conversion.specs.ConvertCall.{converted_in};
ghost use Rattle.flat.specs.Flat.{flat_converted, flat_folded, interval_in, value_in};
ghost use Rattle.exports.specs.Values.{FoldFlat, ConvertFlat, evaluate_flat, change_flat, InterpolateFlat};

use firrozun::{
    Basis, Fold, Interval, Parity, Refusal, change_of_basis, chebyshev_interpolate, convert_coeffs,
    detect_parity, evaluate_coeffs, fold_parity,
};
use flat::flat::{CConverted, CFolded, CInterpolated, CInterval, CValue};
use number::Coefficient;

// Folds coefficients of either type, by numbers.
fn folded<C: Coefficient>(parity: u8, basis: u8, c: &[C], out: &mut [C]) -> Result<Fold, Refusal>
    ensures { FoldFlat C.numbers parity basis c.now out.old (flat_folded (folded_in result)) out.new }
{
    fold_parity(Parity::try_from(parity)?, Basis::try_from(basis)?, c, out)
}

#[unsafe(no_mangle)]
pub extern "C" fn firrozun_fold_parity(parity: u8, basis: u8, c: &[i64], out: &mut [i64]) -> CFolded
    ensures { FoldFlat whole_numbers parity basis c.now out.old result out.new }
{
    CFolded::from(folded(parity, basis, c, out))
}

#[unsafe(no_mangle)]
pub extern "C" fn firrozun_fold_parity_f64(
    parity: u8,
    basis: u8,
    c: &[f64],
    out: &mut [f64],
) -> CFolded
    ensures { FoldFlat float_numbers parity basis c.now out.old result out.new }
{
    CFolded::from(folded(parity, basis, c, out))
}

fn converted(to: u8, c: &[i64], out: &mut [i64]) -> Result<usize, Refusal>
    ensures { ConvertFlat to c.now out.old (flat_converted (converted_in result)) out.new }
{
    convert_coeffs(Basis::try_from(to)?, c, out)
}

#[unsafe(no_mangle)]
pub extern "C" fn firrozun_convert_coeffs(to: u8, c: &[i64], out: &mut [i64]) -> CConverted
    ensures { ConvertFlat to c.now out.old result out.new }
{
    CConverted::from(converted(to, c, out))
}

fn evaluated(basis: u8, coeffs: &[f64], x: f64) -> Result<f64, Refusal>
    ensures { value_in result ≡ evaluate_flat basis coeffs.now x }
{
    Ok(evaluate_coeffs(Basis::try_from(basis)?, coeffs, x))
}

#[unsafe(no_mangle)]
pub extern "C" fn firrozun_evaluate_coeffs(basis: u8, coeffs: &[f64], x: f64) -> CValue
    ensures { result ≡ evaluate_flat basis coeffs.now x }
{
    CValue::from(evaluated(basis, coeffs, x))
}

#[unsafe(no_mangle)]
pub extern "C" fn firrozun_detect_parity(c: &[i64]) -> u8
    ensures { result ≡ parity_number (parity_of whole_numbers c.now) }
{
    u8::from(detect_parity(c))
}

#[unsafe(no_mangle)]
pub extern "C" fn firrozun_detect_parity_f64(c: &[f64]) -> u8
    ensures { result ≡ parity_number (parity_of float_numbers c.now) }
{
    u8::from(detect_parity(c))
}

fn interval(basis: u8, a: f64, b: f64) -> Result<Interval, Refusal>
    ensures { interval_in result ≡ change_flat basis a b }
{
    Ok(change_of_basis(Basis::try_from(basis)?, a, b))
}

#[unsafe(no_mangle)]
pub extern "C" fn firrozun_change_of_basis(basis: u8, a: f64, b: f64) -> CInterval
    ensures { result ≡ change_flat basis a b }
{
    CInterval::from(interval(basis, a, b))
}

#[unsafe(no_mangle)]
pub extern "C" fn firrozun_chebyshev_interpolate(
    nodes: &[f64],
    values: &[f64],
    a: f64,
    b: f64,
    out: &mut [f64],
) -> CInterpolated
    ensures { InterpolateFlat nodes.now values.now a b out.old result out.new }
{
    CInterpolated::from(chebyshev_interpolate(nodes, values, a, b, out))
}
