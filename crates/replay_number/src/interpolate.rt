// Replaying interpolation.
use crate::parity::match_parity;
use firrozun::Refusal;
use recording::{Fields, agree};

// interpolate  a  b  n  node..  value..  =  n  c..  letter
// The Rust refuses an interval without a < b, our refusal 7, and no nodes, our refusal 8.
pub fn interpolate_agrees(mut fields: Fields) -> Option<()> {
    let mut nodes = [0.0; 4096];
    let mut values = [0.0; 4096];
    let mut out = [0.0; 4096];
    let a = fields.real()?;
    let b = fields.real()?;
    let u = fields.list(&mut nodes)?;
    let v = fields.run(u.len(), &mut values)?;
    fields.word(b"=")?;
    let ours = firrozun::chebyshev_interpolate(u, v, a, b, &mut out);
    if fields.refused() {
        return match ours {
            Err(Refusal::NodesMiscounted) => agree(u.is_empty()),
            Err(Refusal::IntervalUnordered) => agree(!u.is_empty()),
            _ => None,
        };
    }
    let polynomial = ours.ok()?;
    fields.match_list(out.get(..polynomial.count)?)?;
    match_parity(fields, polynomial.parity)
}
