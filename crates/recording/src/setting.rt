// The settings of a call, a letter each.
use crate::field::Fields;
use algebra::{Basis, Parity};
use counts::{Settings, SplitStrategy};
use lines::letter::{read_basis, read_fold, read_parity, read_strategy};

impl Fields<'_> {
    // Reads M or C.
    pub fn basis(&mut self) -> Option<Basis> {
        read_basis(self.letter()?)
    }

    // Reads F, E or O.
    pub fn parity(&mut self) -> Option<Parity> {
        read_parity(self.letter()?)
    }

    // Reads D or M.
    pub fn strategy(&mut self) -> Option<SplitStrategy> {
        read_strategy(self.letter()?)
    }

    // Reads N or Y: whether to fold.
    pub fn fold(&mut self) -> Option<bool> {
        read_fold(self.letter()?)
    }

    // Reads a basis, a parity and a strategy.
    pub fn settings(&mut self) -> Option<Settings> {
        let basis = self.basis()?;
        let parity = self.parity()?;
        let strategy = self.strategy()?;
        Some(Settings {
            strategy,
            parity,
            basis,
        })
    }
}
