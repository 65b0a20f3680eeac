// Replays conversions to the other basis.
use recording::Fields;

// This number stands in every place of the buffer that is lent to the call.
const UNWRITTEN: i64 = -7;

// Each buffer has this many places.
const PLACES: usize = 128;

// convert_coeffs  basis  n  c..  room  =  refusal  n  c..
// The basis is the one that is converted to, and the call is lent the first `room` places of a buffer. Every place behind the coefficients must be as it
// was lent; after a refusal that is every place.
pub fn convert_coeffs_agrees(mut fields: Fields) -> Option<()> {
    let mut coeffs = [0; PLACES];
    let mut out = [UNWRITTEN; PLACES];
    let to = fields.basis()?;
    let c = fields.list(&mut coeffs)?;
    let room = fields.count()?;
    fields.word(b"=")?;
    let ours = firrozun::convert_coeffs(to, c, out.get_mut(..room)?);
    fields.match_refusal(&ours)?;
    fields.match_written(&out, ours.unwrap_or(0), UNWRITTEN)?;
    fields.end()
}
