// Replaying folded decompositions on whole coefficients: the plan call with folding has their lists.
use crate::sizes::agree_sizes;
use firrozun::Refusal;
use recording::{Fields, agree};

// Tells whether the Rust has an error for a refusal: 1, 4, 5 and 6. The recording does not say which.
fn is_error(refusal: Refusal) -> bool {
    matches!(
        refusal,
        Refusal::DegreeZero | Refusal::WrongParity | Refusal::FoldsFull | Refusal::FoldsTooLow
    )
}

// decompose_folded_whole  basis  parity  strategy  n  c..  =  degree  base  transform  lists, then each list: n  c..
pub fn decompose_folded_agrees(mut fields: Fields) -> Option<()> {
    let mut coeffs = [0; 4096];
    let mut out = [0; 4096];
    let mut bounds = [0; 4096];
    let mut steps = [0; 4096];
    let settings = fields.settings()?;
    let c = fields.list(&mut coeffs)?;
    fields.word(b"=")?;
    let ours = firrozun::plan(
        settings,
        true,
        c,
        -1.0,
        1.0,
        &mut out,
        &mut bounds,
        &mut steps,
    );
    agree_sizes(settings, true, c.len(), &ours)?;
    if fields.refused() {
        return agree(is_error(ours.err()?));
    }
    let head = ours.ok()?;
    fields.match_number(head.degree)?;
    fields.match_number(head.base)?;
    fields.match_number(u8::from(head.transform) as usize)?;
    fields.match_lists(&out, bounds.get(..head.lists)?)?;
    fields.end()
}
