// Replaying decompositions on whole coefficients, and rebuilding those from the lists.
use crate::head::match_head;
use firrozun::{Listing, Refusal, Settings};
use recording::{Fields, agree};

// Agrees if the lists give the coefficients back.
fn agree_rebuilt(
    settings: Settings,
    ours: Listing,
    out: &[i64],
    bounds: &[u16],
    c: &[i64],
) -> Option<()> {
    let mut back = [0; 4096];
    let lists = out.get(..ours.coefficients)?;
    let rebuilt = firrozun::rebuild(settings, ours.degree, ours.base, lists, bounds, &mut back);
    agree(back.get(..rebuilt.ok()?)? == c)
}

// decompose_whole  basis  parity  strategy  n  c..  =  degree  base  lists, then each list: n  c..
// Lists that agree are the Rust's, and the coefficients must come back from them. The Rust refuses degree 0 alone, our refusal 1.
pub fn decompose_whole_agrees(mut fields: Fields) -> Option<()> {
    let mut coeffs = [0; 4096];
    let mut out = [0; 4096];
    let mut boundaries = [0; 4096];
    let settings = fields.settings()?;
    let c = fields.list(&mut coeffs)?;
    fields.word(b"=")?;
    let ours = firrozun::decompose_bsgs(settings, c, &mut out, &mut boundaries);
    if fields.refused() {
        return agree(ours == Err(Refusal::DegreeZero));
    }
    let listing = ours.ok()?;
    let bounds = boundaries.get(..listing.lists)?;
    match_head(&mut fields, listing)?;
    fields.match_lists(&out, bounds)?;
    fields.end()?;
    agree_rebuilt(settings, listing, &out, bounds, c)
}
