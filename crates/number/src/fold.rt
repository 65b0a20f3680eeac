// Folding of polynomials of one parity.
ghost use Rattle.std.specs.Prelude.{◌≡◌, true, ◌≤◌, length, drop};
ghost use Rattle.std.proofs.lemmas.List.Edits.{sets};
ghost use Rattle.algebra.specs.Fold.{every_second, folded_length, fold};
ghost use Rattle.number.specs.Tests.{is_full, least_folded};
ghost use Rattle.number.specs.FoldCall.{FoldCall, folded_in};
ghost use Rattle.number.specs.Refused.{refusal_of};
ghost use Rattle.number.specs.inside.Folding.{Foldable, refusal_by};

use crate::coefficient::Coefficient;
use crate::degree::degree_of;
use crate::limits::PLAN_LIMIT;
use crate::parity::has_parity;
use crate::refusal::Refusal;
use crate::transform::transform_of;
use algebra::{Basis, Parity, PolynomialInputTransform};

// What a fold call answers: the transform, the result's parity and the number of coefficients written.
#[derive(Clone, Copy, Debug, PartialEq, Eq)]
pub struct Fold {
    pub transform: PolynomialInputTransform,
    pub parity: Parity,
    pub count: usize,
}

// Returns whether the parity is Full.
pub fn is_full(parity: Parity) -> bool
    ensures { result ≡ is_full parity }
{
    parity == Parity::Full
}

// Returns the least degree that folds.
pub fn least_folded(parity: Parity) -> usize
    ensures { result ≡ least_folded parity }
{
    match parity {
        Parity::Full => 0,
        Parity::Even => 2,
        Parity::Odd => 3,
    }
}

// Returns how many coefficients n fold to.
#[tactic(auto, unfolding(algebra::specs::Fold::folded_length))]
pub fn fold_count(parity: Parity, n: usize) -> usize
    ensures { result ≡ folded_length parity n }
{
    match parity {
        Parity::Full => n,
        Parity::Even => n.div_ceil(2),
        Parity::Odd => n / 2,
    }
}

// Refuses n coefficients by the first test that holds of them. The caller says whether they have the parity, are small enough and find no room.
#[tactic(auto, unfolding(crate::specs::inside::Folding::refusal_by))]
fn check_fold(parity: Parity, n: usize, fits: bool, small: bool, short: bool) -> Result<(), Refusal>
    ensures { refusal_of result ≡ refusal_by parity n fits small short }
{
    let degree = degree_of(n);
    if PLAN_LIMIT < degree {
        return Err(Refusal::DegreeTooHigh);
    }
    if is_full(parity) {
        return Err(Refusal::FoldsFull);
    }
    if degree < least_folded(parity) {
        return Err(Refusal::FoldsTooLow);
    }
    if !fits {
        return Err(Refusal::WrongParity);
    }
    if !small {
        return Err(Refusal::SumTooLarge);
    }
    if short {
        return Err(Refusal::CoefficientsShort);
    }
    Ok(())
}

// Writes every second coefficient from place `from` on. It goes by places, since a proof knows nothing of what a zip over `iter_mut` wrote.
#[tactic(auto, using(crate::proofs::FoldLoops::copy_step, crate::proofs::FoldLoops::copy_end, crate::proofs::FoldLoops::count_is))]
fn copy_second<C: Coefficient>(c: &[C], from: usize, out: &mut [C])
    requires { length (every_second (drop from c.now)) ≤ length out.old }
    ensures { out.new ≡ sets out.old 0 (every_second (drop from c.now)) }
{
    let count = c.len().saturating_sub(from).div_ceil(2);
    for i in 0..count {
        out[i] = c[2 * i + from];
    }
}

// Writes the fold of coefficients that are small enough.
#[tactic(auto, using(crate::proofs::FoldCall::even_room, crate::proofs::FoldCall::odd_room), unfolding(algebra::specs::Fold::fold))]
pub fn fold_into<C: Coefficient>(parity: Parity, basis: Basis, c: &[C], out: &mut [C])
    requires { Foldable parity c.now out.old × (C.numbers.small c.now ≡ true) }
    ensures { out.new ≡ sets out.old 0 (fold C.numbers.ops parity basis c.now) }
{
    match (parity, basis) {
        (Parity::Full, _) => {}
        (Parity::Even, _) => copy_second(c, 0, out),
        (Parity::Odd, Basis::Monomial) => copy_second(c, 1, out),
        (Parity::Odd, Basis::Chebyshev) => C::fold_odd(c, out),
    }
}

// Folds a polynomial of parity Even or Odd into one of half the degree. A refused call writes nothing.
pub fn fold_parity<C: Coefficient>(
    parity: Parity,
    basis: Basis,
    c: &[C],
    out: &mut [C],
) -> Result<Fold, Refusal>
    ensures { FoldCall C.numbers parity basis c.now out.old (folded_in result) out.new }
{
    let n = c.len();
    let count = fold_count(parity, n);
    let fits = has_parity(parity, c);
    let small = C::sum_fits(c);
    check_fold(parity, n, fits, small, out.len() < count)?;
    fold_into(parity, basis, c, out);
    Ok(Fold {
        transform: transform_of(parity, basis),
        parity: Parity::Full,
        count,
    })
}
