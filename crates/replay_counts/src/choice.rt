// Replaying the choice of the split and the counts.
use firrozun::{Refusal, Settings};
use recording::{Fields, agree};

// Agrees if the line ends with our answer. The Rust refuses only degree 0 at MinDepth, our refusal 1.
fn match_choice(mut fields: Fields, ours: Result<usize, Refusal>) -> Option<()> {
    if fields.refused() {
        return agree(ours == Err(Refusal::DegreeZero));
    }
    fields.match_number(ours.ok()?)?;
    fields.end()
}

// min_depth_split  degree  =  split
pub fn min_depth_split_agrees(mut fields: Fields) -> Option<()> {
    let degree = fields.count()?;
    fields.word(b"=")?;
    match_choice(fields, firrozun::min_depth_split(degree))
}

// min_mult_split  degree  parity  basis  =  split
pub fn min_mult_split_agrees(mut fields: Fields) -> Option<()> {
    let degree = fields.count()?;
    let parity = fields.parity()?;
    let basis = fields.basis()?;
    fields.word(b"=")?;
    match_choice(fields, firrozun::min_mult_split(parity, basis, degree))
}

// bsgs_op_counts  degree  strategy  parity  basis  =  ctct  ptct
pub fn bsgs_op_counts_agrees(mut fields: Fields) -> Option<()> {
    let degree = fields.count()?;
    let strategy = fields.strategy()?;
    let parity = fields.parity()?;
    let basis = fields.basis()?;
    fields.word(b"=")?;
    let settings = Settings {
        strategy,
        parity,
        basis,
    };
    let pair = firrozun::bsgs_op_counts(settings, degree).ok()?;
    fields.match_number(pair.ct)?;
    fields.match_number(pair.pt)?;
    fields.end()
}
