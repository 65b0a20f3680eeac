// Weights of 64 bits, for the heaviest chain. Their sums stop at the greatest number, which no plan comes near, so they ask no range of what they are
// handed.
ghost use Rattle.std.specs.Prelude.{◌≡◌};
ghost use Rattle.walk.specs.MadeRules.{made_rules};
ghost use Rattle.walk.specs.inside.Weights.{weight_making};
ghost use Rattle.walk.specs.inside.Arithmetic.{weights_are_made};

use crate::arithmetic::Arithmetic;

// The scales of a ct-ct and of a pt-ct multiplication.
#[derive(Clone, Copy)]
pub struct Weights {
    pub input: u64,
    pub coeff: u64,
}

// Returns the weight of a product: a scale more than the greater of its factors'.
pub fn product_weight(scale: u64, a: u64, b: u64) -> u64
    ensures { result ≡ weight_making.product scale a b }
{
    a.max(b).saturating_add(scale)
}

impl Arithmetic for Weights {
    ghost rules = { λ weights. made_rules weight_making weights.input weights.coeff };

    fn point(self, _x: i64) -> u64 {
        0
    }

    fn one(self) -> u64 {
        0
    }

    fn product(self, u: u64, v: u64) -> u64 {
        product_weight(self.input, u, v)
    }

    // The power at the distance gains nothing.
    fn product_less(self, u: u64, v: u64, w: u64) -> u64 {
        product_weight(self.input, u, v).max(w)
    }

    // The constant gains nothing, and every other power the coefficient scale.
    fn place(self, sum: u64, _c: i64, j: usize, power: u64) -> u64 {
        if j == 0 {
            return sum;
        }
        sum.max(product_weight(self.coeff, 0, power))
    }

    // High and the power gain the scale, low nothing. Where high is plain the multiplication is pt-ct, and otherwise ct-ct.
    fn combine(self, plain: bool, power: u64, high: u64, low: u64) -> u64 {
        let scale = if plain { self.coeff } else { self.input };
        product_weight(scale, high, power).max(low)
    }

    ghost laws = { λ weights. weights_are_made weights.input weights.coeff };
}
