// Whole coefficients.
ghost use Rattle.std.specs.Prelude.{◌≡◌, ◌≤◌, ◌^◌, nat_abs, ◌*ℤ◌};
ghost use Rattle.algebra.specs.Operations.{whole_ops};
ghost use Rattle.algebra.specs.Fold.{coeff_r};
ghost use Rattle.number.specs.Limits.{sum_limit};
ghost use Rattle.number.specs.Numbers.{whole_numbers};
ghost use Rattle.number.specs.inside.Room.{SumByLengthTo53};
ghost use Rattle.number.specs.inside.Laws as laws;

use crate::coefficient::Coefficient;
use crate::magnitude;

// Returns s times coefficient i of R_i: once at place 0, and twice elsewhere.
fn times_lead(i: usize, s: i64) -> i64
    requires { nat_abs s ≤ sum_limit }
    ensures { result ≡ s *ℤ coeff_r whole_ops i i }
{
    if i == 0 { s } else { 2 * s }
}

impl Coefficient for i64 {
    ghost numbers = { whole_numbers };

    ghost CanCut = { λ z. nat_abs z ≤ 2 ^ 52 };

    ghost CanList = { SumByLengthTo53 };

    fn is_zero(self) -> bool {
        self == 0
    }

    fn minus(self, other: i64) -> i64 {
        self - other
    }

    fn twice(self) -> i64 {
        2 * self
    }

    fn sum_fits(c: &[i64]) -> bool {
        magnitude::sum_fits(c)
    }

    // Writes from the end: s is c[2i+1] - c[2i+3] + c[2i+5] - ..
    fn fold_odd(c: &[i64], out: &mut [i64]) {
        let mut s = 0;
        for i in (0..c.len() / 2).rev() {
            s = c[2 * i + 1] - s;
            out[i] = times_lead(i, s);
        }
    }

    ghost small_lists = { laws.small_lists };

    ghost lists_cut = { laws.lists_cut };

    ghost lists_low = { laws.lists_low };

    ghost lists_high = { laws.lists_high };
}
