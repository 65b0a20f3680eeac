// The settings without folding, by their letters: strategy changes fastest, then parity, then basis.
ghost use Rattle.std.specs.Prelude.{◌≡◌};
ghost use Rattle.chains.specs.Letters.{letters_at};
ghost use Rattle.chains.specs.ZeroChain.{basis_of, parity_of, strategy_of};

use algebra::{Basis, Parity};
use counts::SplitStrategy;
use lines::letter;

// The letters of basis, parity and strategy.
#[derive(Clone, Copy)]
pub struct Letters {
    pub basis: u8,
    pub parity: u8,
    pub strategy: u8,
}

impl Letters {
    // What each letter says. The letters of a setting all say something, and what any other would say is never asked.
    pub fn said_basis(self) -> Basis
        ensures { result ≡ basis_of self }
    {
        letter::basis_of(self.basis)
    }

    pub fn said_parity(self) -> Parity
        ensures { result ≡ parity_of self }
    {
        letter::parity_of(self.parity)
    }

    pub fn said_strategy(self) -> SplitStrategy
        ensures { result ≡ strategy_of self }
    {
        letter::strategy_of(self.strategy)
    }
}

// The letters of setting k.
pub fn letters_at(k: usize) -> Letters
    ensures { result ≡ letters_at k }
{
    let bases = [b'M', b'C'];
    let parities = [b'F', b'E', b'O'];
    let strategies = [b'D', b'M'];
    Letters {
        basis: bases[k / 6 % 2],
        parity: parities[k / 2 % 3],
        strategy: strategies[k % 2],
    }
}
