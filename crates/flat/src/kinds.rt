// The kinds by their numbers. Readers that can fail answer refusal 43 for a number that is none of its kind's. The others take it for the last kind, and
// `fold_of` for no folding: no call uses it, since calls refuse it first.
ghost use Rattle.std.specs.Prelude.{◌≡◌};
ghost use Rattle.flat.specs.Kinds.{is_fold, basis_numbered, parity_numbered, strategy_numbered, transform_numbered, fold_numbered, knows_all};
ghost use Rattle.flat.specs.Reads.{Reads, settings_meant};

use firrozun::{Basis, Parity, PolynomialInputTransform, Refusal, Settings, SplitStrategy};

// Returns the basis that a number stands for.
#[tactic(auto, unfolding(crate::specs::Kinds::basis_numbered))]
pub fn basis_of(n: u8) -> Basis
    ensures { result ≡ basis_numbered n }
{
    match n {
        0 => Basis::Monomial,
        _ => Basis::Chebyshev,
    }
}

// Returns the parity that a number stands for.
#[tactic(auto, unfolding(crate::specs::Kinds::parity_numbered))]
pub fn parity_of(n: u8) -> Parity
    ensures { result ≡ parity_numbered n }
{
    match n {
        0 => Parity::Full,
        1 => Parity::Even,
        _ => Parity::Odd,
    }
}

// Returns the strategy that a number stands for.
#[tactic(auto, unfolding(crate::specs::Kinds::strategy_numbered))]
pub fn strategy_of(n: u8) -> SplitStrategy
    ensures { result ≡ strategy_numbered n }
{
    match n {
        0 => SplitStrategy::MinDepth,
        _ => SplitStrategy::MinMult,
    }
}

// Returns the transform that a number stands for.
#[tactic(auto, unfolding(crate::specs::Kinds::transform_numbered))]
pub fn transform_of(n: u8) -> PolynomialInputTransform
    ensures { result ≡ transform_numbered n }
{
    match n {
        0 => PolynomialInputTransform::Identity,
        1 => PolynomialInputTransform::Square,
        2 => PolynomialInputTransform::SquareTimesInput,
        3 => PolynomialInputTransform::ChebyshevT2,
        _ => PolynomialInputTransform::ChebyshevT2TimesInput,
    }
}

// Says whether a number stands for folding: 1 does, and no other.
pub fn fold_of(n: u8) -> bool
    ensures { result ≡ fold_numbered n }
{
    n == 1
}

// Reads whether to fold: 0 says without folding, 1 with it.
pub fn read_fold(n: u8) -> Result<bool, Refusal>
    ensures { Reads (is_fold n) (fold_numbered n) result }
{
    match n {
        0 => Ok(false),
        1 => Ok(true),
        _ => Err(Refusal::UnknownKind),
    }
}

// Reads the settings of a call.
pub fn settings_of(strategy: u8, parity: u8, basis: u8) -> Result<Settings, Refusal>
    ensures { Reads (knows_all strategy parity basis) (settings_meant strategy parity basis) result }
{
    Ok(Settings {
        strategy: SplitStrategy::try_from(strategy)?,
        parity: Parity::try_from(parity)?,
        basis: Basis::try_from(basis)?,
    })
}
