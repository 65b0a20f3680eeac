// f64 coefficients. Their fold keeps the source's order of operations.
ghost use Rattle.std.specs.Prelude.{◌≡◌, List, Float, ◌+◌, ◌*◌, ◌<◌, length};
ghost use Rattle.algebra.specs.Fold.{coeff_r};
ghost use Rattle.number.specs.Numbers.{float_ops, float_numbers};
ghost use Rattle.number.specs.inside.Folding.{odd_place};
ghost use Rattle.number.specs.inside.Laws.{any_cut};

use crate::coefficient::Coefficient;

// Returns coefficient i of R_i.
fn lead(i: usize) -> f64
    ensures { result ≡ coeff_r float_ops i i }
{
    if i == 0 { 1.0 } else { 2.0 }
}

// Returns place i of the fold of an odd Chebyshev polynomial: the sum from +0 of c[2k+1] times coefficient i of R_k, k rising from i.
fn odd_place(c: &[f64], i: usize) -> f64
    requires { 2 * i + 1 < length c.now }
    ensures { result ≡ odd_place float_ops c.now i }
{
    let mut sum = 0.0;
    let mut w = lead(i);
    for j in (2 * i + 1..c.len()).step_by(2) {
        sum += c[j] * w;
        w = -w;
    }
    sum
}

// Returns places i and i + 1, each summed as `odd_place` does, in one loop: neither sum waits for the other, so the loop takes the time of one.
fn odd_places(c: &[f64], i: usize) -> (f64, f64)
    requires { 2 * i + 3 < length c.now }
    ensures { (result.0 ≡ odd_place float_ops c.now i) × (result.1 ≡ odd_place float_ops c.now (i + 1)) }
{
    let from = 2 * i + 1;
    let mut first = 0.0 + c[from] * lead(i);
    let mut w = -lead(i);
    let mut second = 0.0;
    let mut v = lead(i + 1);
    for j in (from + 2..c.len()).step_by(2) {
        first += c[j] * w;
        second += c[j] * v;
        w = -w;
        v = -v;
    }
    (first, second)
}

impl Coefficient for f64 {
    ghost numbers = { float_numbers };

    ghost CanCut = { λ x. Unit {0} };

    ghost CanList = { λ c. Unit {0} };

    // -0 counts as zero, and a NaN does not.
    fn is_zero(self) -> bool {
        self == 0.0
    }

    fn minus(self, other: f64) -> f64 {
        self - other
    }

    #[tactic(auto, using(crate::proofs::Literals::double_is))]
    fn twice(self) -> f64 {
        2.0 * self
    }

    fn sum_fits(_c: &[f64]) -> bool {
        true
    }

    // Writes two places a turn; of an odd number of places one is left after the loop.
    fn fold_odd(c: &[f64], out: &mut [f64]) {
        let n = c.len() / 2;
        for i in (0..n.saturating_sub(1)).step_by(2) {
            (out[i], out[i + 1]) = odd_places(c, i);
        }
        if n % 2 == 1 {
            out[n - 1] = odd_place(c, n - 1);
        }
    }

    ghost small_lists = { λ c small few. tt };

    ghost lists_cut = { λ c two fine. any_cut c };

    ghost lists_low = { λ basis p c under fine. tt };

    ghost lists_high = { λ basis p c under half fine. tt };
}
