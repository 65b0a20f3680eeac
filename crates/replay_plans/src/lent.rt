// Replaying trial walks of lent plans, damaged ones too.
use firrozun::{Head, PolynomialInputTransform, SplitStrategy, change_of_basis};
use recording::Fields;

// Reads a transform by its number.
fn read_transform(fields: &mut Fields) -> Option<PolynomialInputTransform> {
    let number = u8::try_from(fields.number()?).ok()?;
    PolynomialInputTransform::try_from(number).ok()
}

// basis  parity  transform  coefficients  lists  steps
// The walk reads no other field, so the interval is one that no plan has.
fn read_head(fields: &mut Fields) -> Option<Head> {
    let basis = fields.basis()?;
    Some(Head {
        basis,
        parity: fields.parity()?,
        strategy: SplitStrategy::MinDepth,
        transform: read_transform(fields)?,
        degree: 0,
        base: 0,
        ct: 0,
        pt: 0,
        depth: 0,
        coefficients: fields.count()?,
        lists: fields.count()?,
        steps: fields.count()?,
        interval: change_of_basis(basis, 1.0, 1.0),
    })
}

// trial_walk  head  point  modulus  n  c..  n  bound..  n  number..  =  refusal  remainder
pub fn trial_walk_agrees(mut fields: Fields) -> Option<()> {
    let mut coeffs = [0; 64];
    let mut boundaries = [0; 64];
    let mut numbers = [0; 512];
    let head = read_head(&mut fields)?;
    let point = fields.signed()?;
    let modulus = fields.number()?;
    let c = fields.list(&mut coeffs)?;
    let bounds = fields.list(&mut boundaries)?;
    let steps = fields.list(&mut numbers)?;
    fields.word(b"=")?;
    let ours = firrozun::trial_walk(head, c, bounds, steps, point, modulus);
    fields.match_refusal(&ours)?;
    fields.match_number(ours.unwrap_or(0) as usize)?;
    fields.end()
}
