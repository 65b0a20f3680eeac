// The lists of a part back to its coefficients, in place: the plan tree backwards.
ghost use Rattle.std.specs.Prelude.{◌≡◌, true, ◌<◌, ◌^◌, length};
ghost use Rattle.std.proofs.Math.Option.{some};
ghost use Rattle.number.specs.Tests.{degree_of};
ghost use Rattle.lists.specs.Tree.{tree_of};
ghost use Rattle.lists.specs.inside.Listing.{Ranges};
ghost use Rattle.number.specs.Options.{when};
ghost use Rattle.rebuild.specs.Undo.{every, fits_i64};
ghost use Rattle.rebuild.specs.Rebuild.{rebuilt};

use crate::undo::undo_cut;
use lists::{listed_again, smaller_split};
use number::{Basis, power_of_two, top_power};

// Whether every cut could be undone; then c holds the coefficients, otherwise numbers partly rebuilt. `whole` is the degree of the whole polynomial,
// and `leading` says that only high parts led here and that the strategy is MinDepth.
#[cycle(rebuild_part_rebuild_slice)]
pub fn rebuild_part(leading: bool, basis: Basis, whole: usize, split: usize, c: &mut [i64]) -> bool
    requires { (0 < length c.old) × (Ranges whole (degree_of c.old) split × (every fits_i64 c.old ≡ true)) }
    ensures { rebuilt basis (tree_of leading whole (degree_of c.old) split) c.old ≡ when result (some c.new) }
{
    let base = power_of_two(split);
    let degree = c.len() - 1;
    if degree < base {
        return rebuild_slice(leading, basis, whole, split, c);
    }
    let p = top_power(degree);
    if !rebuild_part(false, basis, whole, split, &mut c[..p]) {
        return false;
    }
    if !rebuild_part(leading, basis, whole, split, &mut c[p..]) {
        return false;
    }
    undo_cut(basis, p, c)
}

// A slice: one list, or, if it is the leading one, the tree at a smaller split.
#[cycle(rebuild_part_rebuild_slice)]
fn rebuild_slice(leading: bool, basis: Basis, whole: usize, split: usize, c: &mut [i64]) -> bool
    requires { (0 < length c.old)
        × (Ranges whole (degree_of c.old) split × ((every fits_i64 c.old ≡ true) × (degree_of c.old < 2 ^ split))) }
    ensures { rebuilt basis (tree_of leading whole (degree_of c.old) split) c.old ≡ when result (some c.new) }
{
    let degree = c.len() - 1;
    if listed_again(leading, whole, degree, split) {
        let smaller = smaller_split(degree);
        return rebuild_part(leading, basis, whole, smaller, c);
    }
    true
}
