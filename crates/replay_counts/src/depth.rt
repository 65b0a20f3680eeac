// Replaying depth and bits.
use recording::Fields;

// bsgs_eval_depth  degree  strategy  =  depth
pub fn bsgs_eval_depth_agrees(mut fields: Fields) -> Option<()> {
    let degree = fields.count()?;
    let strategy = fields.strategy()?;
    fields.word(b"=")?;
    let depth = firrozun::bsgs_eval_depth(strategy, degree).ok()?;
    fields.match_number(depth)?;
    fields.end()
}

// bsgs_consumed_bits  degree  strategy  inputscale  coeffscale  =  bits
pub fn bsgs_consumed_bits_agrees(mut fields: Fields) -> Option<()> {
    let degree = fields.count()?;
    let strategy = fields.strategy()?;
    let input = fields.count()?;
    let coeff = fields.count()?;
    fields.word(b"=")?;
    let bits = firrozun::bsgs_consumed_bits(strategy, degree, input, coeff).ok()?;
    fields.match_number(bits)?;
    fields.end()
}
