// Replaying folds.
use firrozun::{Parity, Refusal};
use number::Coefficient;
use recording::{Element, Fields, agree};

// fold_parity  basis  parity  n  c..  =  transform  n  c..
// The coefficients are read into one buffer, and folded into the other. Our refusals 4, 5 and 6 are the Rust's errors; the recording does not say which.
pub fn fold_parity_agrees<C: Coefficient + Element>(
    mut fields: Fields,
    coeffs: &mut [C],
    out: &mut [C],
) -> Option<()> {
    let basis = fields.basis()?;
    let parity = fields.parity()?;
    let c = fields.list(coeffs)?;
    fields.word(b"=")?;
    let ours = firrozun::fold_parity(parity, basis, c, out);
    if fields.refused() {
        return agree(matches!(
            ours,
            Err(Refusal::WrongParity | Refusal::FoldsFull | Refusal::FoldsTooLow)
        ));
    }
    let fold = ours.ok()?;
    agree(fold.parity == Parity::Full)?;
    fields.match_number(u8::from(fold.transform) as usize)?;
    fields.match_list(out.get(..fold.count)?)?;
    fields.end()
}

// Agrees if our fold of real coefficients is the line's. The buffers stand here and not in `main`, which would clear them for each line of the input.
#[inline(never)]
pub fn real_fold_agrees(fields: Fields) -> Option<()> {
    fold_parity_agrees(fields, &mut [0.0; 4096], &mut [0.0; 4096])
}

// Does the same for whole coefficients.
#[inline(never)]
pub fn whole_fold_agrees(fields: Fields) -> Option<()> {
    fold_parity_agrees(fields, &mut [0; 4096], &mut [0; 4096])
}
