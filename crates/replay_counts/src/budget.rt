// Replaying the largest degree for a budget.
use recording::Fields;

// Reads a decimal number, or the greatest of u64, which is too long for `number`.
fn read_up_to_greatest(fields: &mut Fields) -> Option<u64> {
    let mut ahead = *fields;
    if ahead.word(b"18446744073709551615").is_some() {
        *fields = ahead;
        return Some(u64::MAX);
    }
    fields.number()
}

// largest_degree  strategy  budget  inputscale  coeffscale  =  refusal  degree
pub fn largest_degree_agrees(mut fields: Fields) -> Option<()> {
    let strategy = fields.strategy()?;
    let budget = read_up_to_greatest(&mut fields)?;
    let input = read_up_to_greatest(&mut fields)? as usize;
    let coeff = read_up_to_greatest(&mut fields)? as usize;
    fields.word(b"=")?;
    let ours = firrozun::largest_degree(strategy, budget, input, coeff);
    fields.match_refusal(&ours)?;
    fields.match_number(ours.unwrap_or(0))?;
    fields.end()
}
