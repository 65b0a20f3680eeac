// Replaying rebuilds.
use recording::Fields;

// This number stands in every place of the buffer that is lent to the call.
const UNWRITTEN: i64 = -7;

// Each buffer has this many places.
const PLACES: usize = 4200;

// rebuild  basis  parity  strategy  degree  base  n  l..  n  bound..  room  =  refusal  n  c..
// The call is lent the first `room` places of a buffer. Every place behind the coefficients must be as it was lent; after a refusal that is every place.
pub fn rebuild_agrees(mut fields: Fields) -> Option<()> {
    let mut numbers = [0; PLACES];
    let mut boundaries = [0; PLACES];
    let mut out = [UNWRITTEN; PLACES];
    let settings = fields.settings()?;
    let degree = fields.count()?;
    let base = fields.count()?;
    let lists = fields.list(&mut numbers)?;
    let bounds = fields.list(&mut boundaries)?;
    let room = fields.count()?;
    fields.word(b"=")?;
    let ours = firrozun::rebuild(settings, degree, base, lists, bounds, out.get_mut(..room)?);
    fields.match_refusal(&ours)?;
    fields.match_written(&out, ours.unwrap_or(0), UNWRITTEN)?;
    fields.end()
}
