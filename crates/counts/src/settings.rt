// What a plan is made with.
use super::choice::SplitStrategy;
use algebra::{Basis, Parity};

// How a split is chosen, the parity of the polynomials that are planned, and their basis.
#[derive(Clone, Copy, Debug, PartialEq, Eq)]
pub struct Settings {
    pub strategy: SplitStrategy,
    pub parity: Parity,
    pub basis: Basis,
}
