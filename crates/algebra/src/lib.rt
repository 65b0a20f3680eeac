// The kinds by which the definitions and laws go, in the source's order, and their numbers.
#![tactic(auto)]

ghost use Rattle.std.specs.Prelude.{◌≡◌};
ghost use Rattle.algebra.specs.EnumNumbers.{basis_number, parity_number, transform_number};
ghost use Rattle.algebra.specs.Decodes.{Decodes};

// X^n, or T_n.
#[derive(Clone, Copy, Debug, PartialEq, Eq)]
pub enum Basis {
    Monomial,
    Chebyshev,
}

// Which powers a polynomial may have: all, the even ones or the odd ones.
#[derive(Clone, Copy, Debug, PartialEq, Eq)]
pub enum Parity {
    Full,
    Even,
    Odd,
}

// What the input goes through before a folded polynomial is evaluated; TimesInput multiplies the result by the input.
#[derive(Clone, Copy, Debug, PartialEq, Eq)]
pub enum PolynomialInputTransform {
    Identity,
    Square,
    SquareTimesInput,
    ChebyshevT2,
    ChebyshevT2TimesInput,
}

// A number that stands for no kind.
#[derive(Clone, Copy, Debug, PartialEq, Eq)]
pub struct UnknownKind(pub u8);

impl From<Basis> for u8 {
    ghost from_gives = { λ basis n. n ≡ basis_number basis };

    fn from(basis: Basis) -> u8 {
        match basis {
            Basis::Monomial => 0,
            Basis::Chebyshev => 1,
        }
    }
}

impl TryFrom<u8> for Basis {
    type Error = UnknownKind;

    ghost try_from_gives = { Decodes basis_number 1 };

    fn try_from(n: u8) -> Result<Self, UnknownKind> {
        match n {
            0 => Ok(Basis::Monomial),
            1 => Ok(Basis::Chebyshev),
            _ => Err(UnknownKind(n)),
        }
    }
}

impl From<Parity> for u8 {
    ghost from_gives = { λ parity n. n ≡ parity_number parity };

    fn from(parity: Parity) -> u8 {
        match parity {
            Parity::Full => 0,
            Parity::Even => 1,
            Parity::Odd => 2,
        }
    }
}

impl TryFrom<u8> for Parity {
    type Error = UnknownKind;

    ghost try_from_gives = { Decodes parity_number 2 };

    fn try_from(n: u8) -> Result<Self, UnknownKind> {
        match n {
            0 => Ok(Parity::Full),
            1 => Ok(Parity::Even),
            2 => Ok(Parity::Odd),
            _ => Err(UnknownKind(n)),
        }
    }
}

impl From<PolynomialInputTransform> for u8 {
    ghost from_gives = { λ transform n. n ≡ transform_number transform };

    fn from(transform: PolynomialInputTransform) -> u8 {
        match transform {
            PolynomialInputTransform::Identity => 0,
            PolynomialInputTransform::Square => 1,
            PolynomialInputTransform::SquareTimesInput => 2,
            PolynomialInputTransform::ChebyshevT2 => 3,
            PolynomialInputTransform::ChebyshevT2TimesInput => 4,
        }
    }
}

impl TryFrom<u8> for PolynomialInputTransform {
    type Error = UnknownKind;

    ghost try_from_gives = { Decodes transform_number 4 };

    fn try_from(n: u8) -> Result<Self, UnknownKind> {
        match n {
            0 => Ok(PolynomialInputTransform::Identity),
            1 => Ok(PolynomialInputTransform::Square),
            2 => Ok(PolynomialInputTransform::SquareTimesInput),
            3 => Ok(PolynomialInputTransform::ChebyshevT2),
            4 => Ok(PolynomialInputTransform::ChebyshevT2TimesInput),
            _ => Err(UnknownKind(n)),
        }
    }
}
