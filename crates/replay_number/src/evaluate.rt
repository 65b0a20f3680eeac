// Replaying evaluation and the change of basis.
use recording::Fields;

// evaluate  basis  n  c..  x  =  value
pub fn evaluate_agrees(mut fields: Fields) -> Option<()> {
    let mut coeffs = [0.0; 8192];
    let basis = fields.basis()?;
    let c = fields.list(&mut coeffs)?;
    let x = fields.real()?;
    fields.word(b"=")?;
    fields.match_real(firrozun::evaluate_coeffs(basis, c, x))?;
    fields.end()
}

// change_of_basis  basis  a  b  =  u  w
pub fn change_of_basis_agrees(mut fields: Fields) -> Option<()> {
    let basis = fields.basis()?;
    let a = fields.real()?;
    let b = fields.real()?;
    fields.word(b"=")?;
    let ours = firrozun::change_of_basis(basis, a, b);
    fields.match_real(ours.u)?;
    fields.match_real(ours.w)?;
    fields.end()
}
