// The letters of the settings.
ghost use Rattle.std.specs.Prelude.{◌≡◌, false};
ghost use Rattle.algebra.specs.declared.Basis.TheVariants.{Monomial};
ghost use Rattle.algebra.specs.declared.Parity.TheVariants.{Full};
ghost use Rattle.counts.specs.declared.choice.SplitStrategy.TheVariants.{MinDepth};
ghost use Rattle.lines.specs.Letters.{bases, parities, strategies, folds, says};
ghost use Rattle.lines.specs.inside.Reading.{said};

use algebra::{Basis, Parity};
use counts::SplitStrategy;

// Returns the basis that a letter says, if it says one.
pub fn read_basis(letter: u8) -> Option<Basis>
    ensures { result ≡ said Monomial bases letter }
{
    match letter {
        b'M' => Some(Basis::Monomial),
        b'C' => Some(Basis::Chebyshev),
        _ => None,
    }
}

// Returns the basis that a letter says. Any byte that is no letter stands for the monomial one.
pub fn basis_of(letter: u8) -> Basis
    ensures { result ≡ says Monomial bases letter }
{
    read_basis(letter).unwrap_or(Basis::Monomial)
}

// Returns the parity that a letter says, if it says one.
pub fn read_parity(letter: u8) -> Option<Parity>
    ensures { result ≡ said Full parities letter }
{
    match letter {
        b'F' => Some(Parity::Full),
        b'E' => Some(Parity::Even),
        b'O' => Some(Parity::Odd),
        _ => None,
    }
}

// Returns the parity that a letter says. Any byte that is no letter stands for the full one.
pub fn parity_of(letter: u8) -> Parity
    ensures { result ≡ says Full parities letter }
{
    read_parity(letter).unwrap_or(Parity::Full)
}

// Returns the strategy that a letter says, if it says one.
pub fn read_strategy(letter: u8) -> Option<SplitStrategy>
    ensures { result ≡ said MinDepth strategies letter }
{
    match letter {
        b'D' => Some(SplitStrategy::MinDepth),
        b'M' => Some(SplitStrategy::MinMult),
        _ => None,
    }
}

// Returns the strategy that a letter says. Any byte that is no letter stands for the least depth.
pub fn strategy_of(letter: u8) -> SplitStrategy
    ensures { result ≡ says MinDepth strategies letter }
{
    read_strategy(letter).unwrap_or(SplitStrategy::MinDepth)
}

// Returns whether a letter says to fold, if it says anything of that.
pub fn read_fold(letter: u8) -> Option<bool>
    ensures { result ≡ said false folds letter }
{
    match letter {
        b'N' => Some(false),
        b'Y' => Some(true),
        _ => None,
    }
}

// Tells whether a letter says to fold. Any byte that is no letter says not to.
pub fn fold_of(letter: u8) -> bool
    ensures { result ≡ says false folds letter }
{
    read_fold(letter).unwrap_or(false)
}
