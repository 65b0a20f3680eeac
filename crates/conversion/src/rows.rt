// The rows of a conversion: each from the last one and the one before.
ghost use Rattle.std.specs.Prelude.{◌≡◌, ◌≤◌, ◌^◌, nat_abs, length};
ghost use Rattle.conversion.specs.inside.Converting.{left_of, place_of, next_places, RowsFit};

use number::Basis;

// Returns the number to the left of place i, and 0 at place 0.
fn left_of(row: &[i64], i: usize) -> i64
    requires { i ≤ length row.now }
    ensures { result ≡ left_of row.now i }
{
    if i == 0 { 0 } else { row[i - 1] }
}

// Returns place i of a row, from its neighbours in the last row, and from the same place of the row before.
fn place(to: Basis, i: usize, left: i64, right: i64, before: i64) -> i64
    requires { (nat_abs left ≤ 2 ^ 32) × ((nat_abs right ≤ 2 ^ 32) × (nat_abs before ≤ 2 ^ 32)) }
    ensures { result ≡ place_of to i left right before }
{
    match to {
        Basis::Monomial => 2 * left - before,
        Basis::Chebyshev if i == 1 => 2 * left + right,
        Basis::Chebyshev => left + right,
    }
}

// Writes the next row over the row before the last.
pub fn next_row(to: Basis, last: &[i64], row: &mut [i64])
    requires { RowsFit last.now row.old }
    ensures { row.new ≡ next_places to last.now row.old }
{
    for (i, number) in row.iter_mut().enumerate() {
        let right = last.get(i + 1).copied().unwrap_or(0);
        *number = place(to, i, left_of(last, i), right, *number);
    }
}
