// The Chebyshev factorisation of a coefficient list at p, in place: low in the first p places, high in the others.
// It serves planning, which calls it within these ranges.
ghost use Rattle.std.specs.Prelude.{◌≡◌, ◌+◌, ◌-◌, ◌≤◌, ◌<◌, length};
ghost use Rattle.algebra.specs.Each.{Each};
ghost use Rattle.algebra.specs.Cut.{cut_at};
ghost use Rattle.algebra.specs.declared.Basis.TheVariants.{Chebyshev};
ghost use Rattle.number.specs.inside.Pair.{cut_one, cut_two, EachOfPair};

use crate::coefficient::Coefficient;

// Takes the coefficient at high off its partner at low, and doubles it.
#[tactic(auto, unfolding(crate::specs::inside::Pair::cut_one))]
fn cut_one<C: Coefficient>(c: &mut [C], low: usize, high: usize)
    requires { (low < high) × ((high < length c.old) × EachOfPair C.CanCut C.numbers.ops.zero c.old low high) }
    ensures { c.new ≡ cut_one C.numbers.ops C.numbers.ops.zero c.old low high }
{
    let x = c[high];
    c[low] = c[low].minus(x);
    c[high] = x.twice();
}

// Does the same for two pairs, the second one place further out. All four coefficients are read before the first store, and the high ones
// again after the low stores: so the compiler takes both pairs at once.
fn cut_two<C: Coefficient>(c: &mut [C], low: usize, high: usize)
    requires { (0 < low)
        × ((low < high)
        × ((high + 1 < length c.old)
        × (EachOfPair C.CanCut C.numbers.ops.zero c.old low high
        × EachOfPair C.CanCut C.numbers.ops.zero c.old (low - 1) (high + 1)))) }
    ensures { c.new ≡ cut_two C.numbers.ops C.numbers.ops.zero c.old low high }
{
    let next_low = low - 1;
    let next_high = high + 1;
    let x = c[high];
    let next_x = c[next_high];
    let y = c[low];
    let next_y = c[next_low];
    c[low] = y.minus(x);
    c[next_low] = next_y.minus(next_x);
    c[high] = c[high].twice();
    c[next_high] = c[next_high].twice();
}

// Takes each coefficient above p off its partner as far below p, and doubles it. A loop over a zip of both parts, which takes one pair a turn,
// takes 1.4 to 2 times as long.
pub fn factorize_coeffs_chebyshev<C: Coefficient>(c: &mut [C], p: usize)
    requires { (p < length c.old) × ((length c.old ≤ p + p) × Each C.CanCut c.old) }
    ensures { c.new ≡ cut_at C.numbers.ops Chebyshev p c.old }
{
    let n = c.len() - p;
    for j in (1..n - 1).step_by(2) {
        cut_two(c, p - j, p + j);
    }
    if n % 2 == 0 {
        cut_one(c, p + 1 - n, p + n - 1);
    }
}
