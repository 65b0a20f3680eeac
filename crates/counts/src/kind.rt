// The numbers by which strategies are shown, and read.
ghost use Rattle.std.specs.Prelude.{◌≡◌};
ghost use Rattle.algebra.specs.Decodes.{Decodes};
ghost use Rattle.counts.specs.StrategyNumber.{strategy_number};

use super::choice::SplitStrategy;
use algebra::UnknownKind;

impl From<SplitStrategy> for u8 {
    ghost from_gives = { λ strategy n. n ≡ strategy_number strategy };

    fn from(strategy: SplitStrategy) -> u8 {
        match strategy {
            SplitStrategy::MinDepth => 0,
            SplitStrategy::MinMult => 1,
        }
    }
}

impl TryFrom<u8> for SplitStrategy {
    type Error = UnknownKind;

    ghost try_from_gives = { Decodes strategy_number 1 };

    fn try_from(n: u8) -> Result<Self, UnknownKind> {
        match n {
            0 => Ok(SplitStrategy::MinDepth),
            1 => Ok(SplitStrategy::MinMult),
            _ => Err(UnknownKind(n)),
        }
    }
}
