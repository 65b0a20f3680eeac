// Replaying decompositions on f64.
use crate::head::match_head;
use firrozun::{Refusal, Settings};
use recording::{Fields, agree};

// decompose  basis  parity  strategy  n  c..  =  degree  base  lists, then each list: n  c..
// The Rust refuses degree 0 alone, our refusal 1.
pub fn decompose_agrees(mut fields: Fields) -> Option<()> {
    let mut coeffs = [0.0; 4096];
    let mut out = [0.0; 4096];
    let mut bounds = [0; 4096];
    let settings = fields.settings()?;
    let c = fields.list(&mut coeffs)?;
    fields.word(b"=")?;
    let ours = firrozun::decompose_bsgs(settings, c, &mut out, &mut bounds);
    if fields.refused() {
        return agree(ours == Err(Refusal::DegreeZero));
    }
    let listing = ours.ok()?;
    match_head(&mut fields, listing)?;
    fields.match_lists(&out, bounds.get(..listing.lists)?)?;
    fields.end()
}

// decompose_folded  basis  parity  strategy  n  c..  =  degree  base  transform  lists, then each list: n  c..
// The fold, and then the lists of the folded polynomial, with the parity that the fold answers. The Rust's errors are our refusals 4, 5 and 6 of the fold.
pub fn decompose_folded_agrees(mut fields: Fields) -> Option<()> {
    let mut coeffs = [0.0; 4096];
    let mut folded = [0.0; 4096];
    let mut out = [0.0; 4096];
    let mut bounds = [0; 4096];
    let settings = fields.settings()?;
    let c = fields.list(&mut coeffs)?;
    fields.word(b"=")?;
    let fold = firrozun::fold_parity(settings.parity, settings.basis, c, &mut folded);
    if fields.refused() {
        return agree(matches!(
            fold,
            Err(Refusal::WrongParity | Refusal::FoldsFull | Refusal::FoldsTooLow)
        ));
    }
    let fold = fold.ok()?;
    let settings = Settings {
        parity: fold.parity,
        ..settings
    };
    let c = folded.get(..fold.count)?;
    let listing = firrozun::decompose_bsgs(settings, c, &mut out, &mut bounds).ok()?;
    match_head(&mut fields, listing)?;
    fields.match_number(u8::from(fold.transform) as usize)?;
    fields.match_lists(&out, bounds.get(..listing.lists)?)?;
    fields.end()
}
