// A cut undone, in place.
ghost use Rattle.std.specs.Prelude.{◌≡◌, true, ◌+◌, ◌≤◌, ◌<◌, length, take, drop};
ghost use Rattle.std.specs.Prelude.{◌^◌, ◌+ℤ◌, FitsSigned};
ghost use Rattle.std.specs.Int.{w64};
ghost use Rattle.std.specs.Int.Signed.{mag};
ghost use Rattle.std.specs.Option.{SomeIff};
ghost use Rattle.std.proofs.Math.Option.{some};
ghost use Rattle.algebra.specs.declared.Basis.TheVariants.{Chebyshev};
ghost use Rattle.number.specs.Options.{when};
ghost use Rattle.rebuild.specs.Undo.{every, fits_i64, undone};

use number::Basis;

// A power of two below which the sum of two magnitudes fits an i64.
const NEAR: i64 = 1 << 62;

// Returns y and a half together, if an i64 holds their sum. Most numbers are near zero, where the sum fits. Of those farther out the limit on their side tells:
// `checked_add` takes longer, and makes numbers near zero wait for it too.
fn plus_half(y: i64, half: i64) -> Option<i64>
    requires { mag half < 2 ^ 62 }
    ensures { SomeIff result (FitsSigned w64 (y +ℤ half)) (y +ℤ half) }
{
    if -NEAR <= y && y < NEAR {
        return Some(y + half);
    }
    if y < 0 {
        if i64::MIN - y <= half {
            Some(y + half)
        } else {
            None
        }
    } else if half <= i64::MAX - y {
        Some(y + half)
    } else {
        None
    }
}

// Undoes a cut in the Chebyshev basis, and returns whether that could be done. If not, the numbers are partly rebuilt. Halves are nearer to zero than
// what is halved, and the other numbers stay as they came: of what is rebuilt, only the sums can be beyond i64.
// It goes by an index, since the contract speaks of the elements, and of what `iter_mut` of two halves leaves it could only tell the lengths.
fn undo_chebyshev(c: &mut [i64], p: usize) -> bool
    requires { (p < length c.old) × ((length c.old ≤ p + p) × (every fits_i64 c.old ≡ true)) }
    ensures { undone Chebyshev (take p c.old) (drop p c.old) ≡ when result (some c.new) }
{
    for j in 1..c.len() - p {
        let doubled = c[p + j];
        if doubled % 2 != 0 {
            return false;
        }
        let half = doubled / 2;
        let Some(sum) = plus_half(c[p - j], half) else {
            return false;
        };
        c[p - j] = sum;
        c[p + j] = half;
    }
    true
}

// Undoes the cut at p, and returns whether that could be done.
pub fn undo_cut(basis: Basis, p: usize, c: &mut [i64]) -> bool
    requires { (p < length c.old) × ((length c.old ≤ p + p) × (every fits_i64 c.old ≡ true)) }
    ensures { undone basis (take p c.old) (drop p c.old) ≡ when result (some c.new) }
{
    match basis {
        Basis::Monomial => true,
        Basis::Chebyshev => undo_chebyshev(c, p),
    }
}
