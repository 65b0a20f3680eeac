// Replaying the call for the sizes of a set.
use crate::asked::read_members;
use recording::Fields;

// Replays set_sizes  count  members  =  refusal, and behind refusal 0 coefficients  lists  steps.
pub fn set_sizes_agrees(mut fields: Fields) -> Option<()> {
    let asked = read_members(&mut fields)?;
    fields.word(b"=")?;
    let ours = firrozun::set_sizes(asked);
    fields.match_refusal(&ours)?;
    if let Ok(sizes) = ours {
        fields.match_number(sizes.coefficients)?;
        fields.match_number(sizes.lists)?;
        fields.match_number(sizes.steps)?;
    }
    fields.end()
}
