// Remainders modulo a number, for the trial walk. The operations ask no range of what they are handed.
ghost use Rattle.std.specs.Prelude.{◌≡◌, MatchResult};
ghost use Rattle.algebra.specs.Operations.{double};
ghost use Rattle.algebra.specs.Remainder.{rem, remainders};
ghost use Rattle.walk.specs.Rules.{trial_rules};
ghost use Rattle.walk.specs.inside.Modulus.{IsModulus};
ghost use Rattle.walk.specs.inside.Arithmetic.{remainders_are_made};

use crate::arithmetic::Arithmetic;
use crate::limits::MODULUS_LIMIT;
use number::Refusal;

// A trial modulus, from 2 to 2,147,483,647.
#[derive(Clone, Copy)]
pub struct Modulus {
    m: u64,
    ghost valid: { IsModulus m },
}

impl Modulus {
    // Returns m as a modulus, and refuses one that is out of range.
    pub fn new(m: u64) -> Result<Modulus, Refusal>
        ensures { MatchResult result (λ modulus. modulus.m ≡ m) (λ refusal. (refusal ≡ Refusal.ModulusOutOfRange) × (¬ IsModulus m)) }
    {
        if m < 2 {
            return Err(Refusal::ModulusOutOfRange);
        }
        if MODULUS_LIMIT < m {
            return Err(Refusal::ModulusOutOfRange);
        }
        Ok(Modulus { m })
    }

    // Returns the remainder of a whole number, from 0 to m - 1.
    pub fn remainder(self, x: i64) -> u64
        ensures { result ≡ rem self.m x }
    {
        x.rem_euclid(self.m as i64) as u64
    }

    // Returns the remainder of a sum.
    pub fn add(self, a: u64, b: u64) -> u64
        ensures { result ≡ (remainders self.m).add a b }
    {
        (a % self.m + b % self.m) % self.m
    }

    // Returns the remainder of a product.
    pub fn mul(self, a: u64, b: u64) -> u64
        ensures { result ≡ (remainders self.m).mul a b }
    {
        (a % self.m) * (b % self.m) % self.m
    }

    // Returns the remainder of a number taken twice.
    pub fn twice(self, a: u64) -> u64
        ensures { result ≡ double (remainders self.m) a }
    {
        self.mul(2, a)
    }
}

impl Arithmetic for Modulus {
    ghost rules = { λ modulus. trial_rules modulus.m };

    fn point(self, x: i64) -> u64 {
        self.remainder(x)
    }

    fn one(self) -> u64 {
        1 % self.m
    }

    fn product(self, u: u64, v: u64) -> u64 {
        self.mul(u, v)
    }

    // 2uv - w: what is added to take w away is m - w, and 0 where w is above m.
    fn product_less(self, u: u64, v: u64, w: u64) -> u64 {
        let less = self.m.saturating_sub(w);
        self.add(self.twice(self.mul(u, v)), less)
    }

    fn place(self, sum: u64, c: i64, _j: usize, power: u64) -> u64 {
        self.add(sum, self.mul(self.remainder(c), power))
    }

    fn combine(self, _plain: bool, power: u64, high: u64, low: u64) -> u64 {
        self.add(self.mul(high, power), low)
    }

    ghost laws = { λ modulus. remainders_are_made modulus.m };
}
