// The head of a decomposition's answer.
use firrozun::Listing;
use recording::Fields;

// Reads our degree and base.
pub fn match_head(fields: &mut Fields, ours: Listing) -> Option<()> {
    fields.match_number(ours.degree)?;
    fields.match_number(ours.base)
}
