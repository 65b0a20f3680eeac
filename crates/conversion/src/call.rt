// The call that converts.
ghost use Rattle.std.specs.Prelude.{◌≡◌, pos, length, replicate};
ghost use Rattle.number.specs.Refused.{refusal_of};
ghost use Rattle.conversion.specs.ConvertCall.{converted_in, ConvertCall};
ghost use Rattle.conversion.specs.inside.Tested.{input_refusal, output_refusal};

use super::sums::new_coeffs;
use super::whole::is_whole;
use number::{Basis, Refusal, degree_of, sum_fits};

// The greatest degree that is converted.
pub const CONVERT_LIMIT: usize = 20;

// Makes the tests of the coefficients in order, and returns the refusal of the first that holds.
fn check_input(to: Basis, c: &[i64]) -> Result<(), Refusal>
    ensures { refusal_of result ≡ input_refusal to c.now }
{
    if CONVERT_LIMIT < degree_of(c.len()) {
        return Err(Refusal::ConversionTooHigh);
    }
    if !sum_fits(c) {
        return Err(Refusal::SumTooLarge);
    }
    if !is_whole(to, c) {
        return Err(Refusal::NotWhole);
    }
    Ok(())
}

// Makes the tests of the new coefficients, with `room` places for them, and returns the refusal of the first that holds.
fn check_output(new: &[i64], room: usize) -> Result<(), Refusal>
    ensures { refusal_of result ≡ output_refusal new.now room }
{
    if !sum_fits(new) {
        return Err(Refusal::SumTooLarge);
    }
    if room < new.len() {
        return Err(Refusal::CoefficientsShort);
    }
    Ok(())
}

// Converts coefficients that pass the tests of the input. `new` holds as many zeros, and takes the new coefficients ahead of the tests of the output.
fn convert_passed(to: Basis, c: &[i64], new: &mut [i64], out: &mut [i64]) -> Result<usize, Refusal>
    requires { (input_refusal to c.now ≡ 0) × (new.old ≡ replicate (length c.now) (pos 0)) }
    ensures { ConvertCall to c.now out.old (converted_in result) out.new }
{
    new_coeffs(to, c, new);
    check_output(new, out.len())?;
    out[..new.len()].copy_from_slice(new);
    Ok(c.len())
}

// Writes a whole polynomial up to degree 20, given in the other basis, in the basis `to`, and returns the number of coefficients.
pub fn convert_coeffs(to: Basis, c: &[i64], out: &mut [i64]) -> Result<usize, Refusal>
    ensures { ConvertCall to c.now out.old (converted_in result) out.new }
{
    check_input(to, c)?;
    let n = c.len();
    let mut new = [0; CONVERT_LIMIT + 1];
    convert_passed(to, c, &mut new[..n], out)
}
