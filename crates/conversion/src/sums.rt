// The new coefficients: the sum of all rows, each times its coefficient's quotient.
ghost use Rattle.std.specs.Prelude.{◌≡◌, true, cond, pos, length, replicate};
ghost use Rattle.bases.specs.Convert.{converted};
ghost use Rattle.conversion.specs.inside.Converting.{next_places, RowsFit, with_row, TermsFit, Convertible};

use super::rows::next_row;
use super::whole::quotient;
use number::Basis;

// Adds q times the row to the sums, place by place.
fn add_row(q: i64, row: &[i64], sums: &mut [i64])
    requires { TermsFit q row.now sums.old }
    ensures { sums.new ≡ with_row q row.now sums.old }
{
    // No zip: a proof does not see what a loop writes through an adapter of iter_mut.
    for (i, sum) in sums.iter_mut().enumerate() {
        *sum += q * row[i];
    }
}

// Adds q times a row to the sums, and then writes the row two further on over it, if that is needed. `next` is the row between.
fn add_and_advance(to: Basis, q: i64, needed: bool, row: &mut [i64], next: &[i64], sums: &mut [i64])
    requires { TermsFit q row.old sums.old × (needed ≡ true → RowsFit next.now row.old) }
    ensures { (sums.new ≡ with_row q row.old sums.old) × (row.new ≡ cond needed (next_places to next.now row.old) row.old) }
{
    add_row(q, row, sums);
    if needed {
        next_row(to, next, row);
    }
}

// Writes the new coefficients over zeros. Ahead of coefficient n one of `even` and `odd` is row n and the other row n + 1, as long as there are
// coefficients for them.
pub fn new_coeffs(to: Basis, c: &[i64], sums: &mut [i64])
    requires { Convertible c.now × (sums.old ≡ replicate (length c.now) (pos 0)) }
    ensures { sums.new ≡ converted to c.now }
{
    let mut even = [0; 21];
    let mut odd = [0; 21];
    even[0] = 1;
    odd[1] = 1;
    for (n, z) in c.iter().enumerate() {
        let q = quotient(to, n, *z);
        let needed = n + 2 < c.len();
        // Two calls, since a swap of the arrays is slower.
        if n % 2 == 0 {
            add_and_advance(to, q, needed, &mut even, &odd, sums);
        } else {
            add_and_advance(to, q, needed, &mut odd, &even, sums);
        }
    }
}
