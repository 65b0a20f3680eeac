// Replaying what the plan call refuses.
use crate::sizes::agree_sizes;
use recording::Fields;

// Each buffer that is lent has this many places.
const PLACES: usize = 4096;

// plan_refused  basis  parity  strategy  fold  room  boundaries  numbers  n  c..  =  refusal
// The call is lent the first `room`, `boundaries` and `numbers` places of the buffers; all of each where one has fewer.
pub fn plan_refused_agrees(mut fields: Fields) -> Option<()> {
    let mut coeffs = [0; 8192];
    let mut out = [0; PLACES];
    let mut bounds = [0; PLACES];
    let mut steps = [0; PLACES];
    let settings = fields.settings()?;
    let fold = fields.fold()?;
    let room = fields.count()?;
    let boundaries = fields.count()?;
    let numbers = fields.count()?;
    let c = fields.list(&mut coeffs)?;
    fields.word(b"=")?;
    let fits = room <= PLACES && boundaries <= PLACES && numbers <= PLACES;
    let (room, boundaries, numbers) = if fits {
        (room, boundaries, numbers)
    } else {
        (PLACES, PLACES, PLACES)
    };
    let ours = firrozun::plan(
        settings,
        fold,
        c,
        -1.0,
        1.0,
        &mut out[..room],
        &mut bounds[..boundaries],
        &mut steps[..numbers],
    );
    agree_sizes(settings, fold, c.len(), &ours)?;
    fields.match_number(u8::from(ours.err()?) as usize)?;
    fields.end()
}
