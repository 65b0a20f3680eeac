// Replaying parity detection.
use firrozun::Parity;
use number::Coefficient;
use recording::{Element, Fields, agree};

// Agrees if the line ends with our parity.
pub fn match_parity(mut fields: Fields, ours: Parity) -> Option<()> {
    agree(fields.parity()? == ours)?;
    fields.end()
}

// parity  n  c..  =  letter
// The coefficients are read into the buffer.
pub fn parity_agrees<C: Coefficient + Element>(mut fields: Fields, coeffs: &mut [C]) -> Option<()> {
    let c = fields.list(coeffs)?;
    fields.word(b"=")?;
    match_parity(fields, firrozun::detect_parity(c))
}

// Agrees if the line ends with our parity of its real coefficients. The buffer stands here and not in `main`, which would clear it for each line of the input.
#[inline(never)]
pub fn real_parity_agrees(fields: Fields) -> Option<()> {
    parity_agrees(fields, &mut [0.0; 8192])
}

// Does the same for whole coefficients.
#[inline(never)]
pub fn whole_parity_agrees(fields: Fields) -> Option<()> {
    parity_agrees(fields, &mut [0; 8192])
}
