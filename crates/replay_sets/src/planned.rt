// Replaying the call that plans a set.
use crate::asked::read_members;
use crate::heads::match_heads;
use recording::{Fields, agree, are_all};

// This number stands in every place of the buffer of coefficients ahead of a call.
const WHOLE: i64 = -6148914691236517206;

// This one stands in every place of the buffers of boundaries and of steps.
const NUMBER: u16 = 43981;

// Reads a number of places that may be lent.
fn read_room(fields: &mut Fields, limit: usize) -> Option<usize> {
    let room = fields.count()?;
    agree(room <= limit)?;
    Some(room)
}

// Replays plan_set  room  boundaries  numbers  count  members  n  c..  =  refusal, and behind refusal 0 the set:
// ct  pt  powers  n  out..  n  bound..  n  number..  heads.
// The call is lent the first places of each buffer, and a refusal leaves every place as it was.
pub fn plan_set_agrees(mut fields: Fields) -> Option<()> {
    let mut coeffs = [0; 8192];
    let mut out = [WHOLE; 4160];
    let mut bounds = [NUMBER; 1088];
    let mut steps = [NUMBER; 8256];
    let room = read_room(&mut fields, 4096)?;
    let boundaries = read_room(&mut fields, 1024)?;
    let numbers = read_room(&mut fields, 8192)?;
    let asked = read_members(&mut fields)?;
    let c = fields.list(&mut coeffs)?;
    fields.word(b"=")?;
    let ours = firrozun::plan_set(
        asked,
        c,
        out.get_mut(..room)?,
        bounds.get_mut(..boundaries)?,
        steps.get_mut(..numbers)?,
    );
    fields.match_refusal(&ours)?;
    let Ok(set) = ours else {
        agree(are_all(&out, WHOLE) && are_all(&bounds, NUMBER) && are_all(&steps, NUMBER))?;
        return fields.end();
    };
    fields.match_number(set.ct)?;
    fields.match_number(set.pt)?;
    fields.match_number(set.powers)?;
    fields.match_filled(&out, WHOLE)?;
    fields.match_filled(&bounds, NUMBER)?;
    fields.match_filled(&steps, NUMBER)?;
    match_heads(&mut fields, &asked, &set.heads)?;
    fields.end()
}
