// Replaying index splitting.
use firrozun::Refusal;
use recording::{Fields, agree};

// split_degree  n  =  a  b. The Rust has no distance.
pub fn split_degree_agrees(mut fields: Fields) -> Option<()> {
    let n = fields.count()?;
    fields.word(b"=")?;
    let ours = firrozun::split_degree(n);
    if fields.refused() {
        return agree(ours == Err(Refusal::IndexOutOfRange));
    }
    let split = ours.ok()?;
    fields.match_number(split.a)?;
    fields.match_number(split.b)?;
    fields.end()
}
