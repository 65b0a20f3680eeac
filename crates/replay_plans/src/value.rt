// Replaying the values of plans: what the plan call leaves, walked, gives the remainder of the polynomial's value.
use crate::sizes::agree_sizes;
use recording::Fields;

// plan_value  basis  parity  strategy  fold  point  modulus  n  c..  =  remainder
pub fn plan_value_agrees(mut fields: Fields) -> Option<()> {
    let mut coeffs = [0; 4096];
    let mut out = [0; 4096];
    let mut bounds = [0; 4096];
    let mut steps = [0; 4096];
    let settings = fields.settings()?;
    let fold = fields.fold()?;
    let point = fields.signed()?;
    let modulus = fields.number()?;
    let c = fields.list(&mut coeffs)?;
    fields.word(b"=")?;
    let ours = firrozun::plan(
        settings,
        fold,
        c,
        -1.0,
        1.0,
        &mut out,
        &mut bounds,
        &mut steps,
    );
    agree_sizes(settings, fold, c.len(), &ours)?;
    let walked = firrozun::trial_walk(ours.ok()?, &out, &bounds, &steps, point, modulus);
    fields.match_number(walked.ok()? as usize)?;
    fields.end()
}
