// Replaying the interval in the head of a plan.
use crate::sizes::agree_sizes;
use firrozun::{Head, Refusal};
use recording::{Fields, agree};

// Agrees if the line ends with the head's bounds and change pair, bit by bit. The word of a refusal stands for 7.
fn match_interval(mut fields: Fields, ours: Result<Head, Refusal>) -> Option<()> {
    if fields.refused() {
        return agree(matches!(ours, Err(Refusal::IntervalUnordered)));
    }
    let interval = ours.ok()?.interval;
    fields.match_real(interval.a)?;
    fields.match_real(interval.b)?;
    fields.match_real(interval.u)?;
    fields.match_real(interval.w)?;
    fields.end()
}

// plan_interval  basis  parity  strategy  fold  a  b  n  c..  =  a  b  u  w
pub fn plan_interval_agrees(mut fields: Fields) -> Option<()> {
    let mut coeffs = [0; 4096];
    let mut out = [0; 4096];
    let mut bounds = [0; 4096];
    let mut steps = [0; 4096];
    let settings = fields.settings()?;
    let fold = fields.fold()?;
    let a = fields.real()?;
    let b = fields.real()?;
    let c = fields.list(&mut coeffs)?;
    fields.word(b"=")?;
    let ours = firrozun::plan(settings, fold, c, a, b, &mut out, &mut bounds, &mut steps);
    agree_sizes(settings, fold, c.len(), &ours)?;
    match_interval(fields, ours)
}
