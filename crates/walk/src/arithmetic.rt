// The arithmetic that the steps run on: what the walk's rules make of numbers of 64 bits.
ghost use Rattle.std.specs.Prelude.{◌≡◌, ℕ};
ghost use Rattle.walk.specs.Rules.{Rules};
ghost use Rattle.walk.specs.inside.Arithmetic.{AreMade};

// Remainders for the trial walk, weights for the heaviest chain. Its laws say that a sum starts from 0, and that the transforms are made of products.
pub trait Arithmetic: Copy {
    ghost rules: { Self → Rules ℕ };

    // Returns the point as a number.
    fn point(self, x: i64) -> u64
        ensures { result ≡ (rules self).point x };

    // Returns power 0.
    fn one(self) -> u64
        ensures { result ≡ (rules self).one };

    // Returns the power that is made of its two parts.
    fn product(self, u: u64, v: u64) -> u64
        ensures { result ≡ (rules self).product u v };

    // Returns the power that is made of its two parts and the power at their distance.
    fn product_less(self, u: u64, v: u64, w: u64) -> u64
        ensures { result ≡ (rules self).product_less u v w };

    // Returns a list's sum with place j: its coefficient c and power j.
    fn place(self, sum: u64, c: i64, j: usize, power: u64) -> u64
        ensures { result ≡ (rules self).place sum c j power };

    // Returns what a power makes of high and low.
    fn combine(self, plain: bool, power: u64, high: u64, low: u64) -> u64
        ensures { result ≡ (rules self).combine plain power high low };

    ghost laws: { (arithmetic : Self) → AreMade (rules arithmetic) };
}
