// Listing coefficients in place.
ghost use Rattle.std.specs.Prelude.{◌≡◌, ◌+◌, ◌≤◌, ◌<◌, ◌^◌, length};
ghost use Rattle.algebra.specs.Cut.{cut_at};
ghost use Rattle.algebra.specs.Each.{Each};
ghost use Rattle.number.specs.Tests.{degree_of};
ghost use Rattle.lists.specs.Tree.{tree_of};
ghost use Rattle.lists.specs.ListCall.{listed_in, ListCall};
ghost use Rattle.lists.specs.inside.Listing.{Listable, InPlace};

use super::call::{Listing, check_sizes};
use super::count::{count_lists, listed_again, relists, smaller_split};
use counts::{Settings, split_for_strategy};
use number::{
    Basis, Coefficient, Refusal, copy_coeffs, factorize_coeffs_chebyshev, power_of_two, top_power,
};

// Cuts the coefficients at p.
fn cut_coeffs<C: Coefficient>(basis: Basis, p: usize, c: &mut [C])
    requires { (p < length c.old) × ((length c.old ≤ p + p) × Each C.CanCut c.old) }
    ensures { c.new ≡ cut_at C.numbers.ops basis p c.old }
{
    match basis {
        Basis::Monomial => {}
        Basis::Chebyshev => factorize_coeffs_chebyshev(c, p),
    }
}

// Lists c, which stands from place `at` on behind n lists, at a split, as the source's decompose_bsgs_coeffs does. `whole` is the degree of the whole
// polynomial, and `leading` says that only high parts led here and that the strategy is MinDepth. Returns how many lists there are then.
#[cycle(list_coeffs_list_slice)]
pub fn list_coeffs<C: Coefficient>(
    leading: bool,
    basis: Basis,
    whole: usize,
    split: usize,
    at: usize,
    n: usize,
    c: &mut [C],
    bounds: &mut [u16],
) -> usize
    requires { Listable leading whole split at n c.old bounds.old × C.CanList c.old }
    ensures { InPlace C.numbers.ops basis (tree_of leading whole (degree_of c.old) split) at n c.old bounds.old
        result c.new bounds.new }
{
    let base = power_of_two(split);
    let degree = c.len() - 1;
    if degree < base {
        return list_slice(leading, basis, whole, split, at, n, c, bounds);
    }
    let p = top_power(degree);
    cut_coeffs(basis, p, c);
    let m = list_coeffs(false, basis, whole, split, at, n, &mut c[..p], bounds);
    list_coeffs(leading, basis, whole, split, at + p, m, &mut c[p..], bounds)
}

// Lists a slice: one list, or, if it is the leading one, again at a smaller split.
#[cycle(list_coeffs_list_slice)]
fn list_slice<C: Coefficient>(
    leading: bool,
    basis: Basis,
    whole: usize,
    split: usize,
    at: usize,
    n: usize,
    c: &mut [C],
    bounds: &mut [u16],
) -> usize
    requires { Listable leading whole split at n c.old bounds.old × (C.CanList c.old × (degree_of c.old < 2 ^ split)) }
    ensures { InPlace C.numbers.ops basis (tree_of leading whole (degree_of c.old) split) at n c.old bounds.old
        result c.new bounds.new }
{
    let degree = c.len() - 1;
    if listed_again(leading, whole, degree, split) {
        let smaller = smaller_split(degree);
        return list_coeffs(leading, basis, whole, smaller, at, n, c, bounds);
    }
    bounds[n] = (at + c.len()) as u16;
    n + 1
}

// The list call: writes the lists of c one after another to `out`, and the place just past each to `bounds`. Every test is made before the first write.
pub fn decompose_bsgs<C: Coefficient>(
    settings: Settings,
    c: &[C],
    out: &mut [C],
    bounds: &mut [u16],
) -> Result<Listing, Refusal>
    ensures { ListCall C.numbers settings.strategy settings.parity settings.basis c.now out.old bounds.old
        (listed_in result) out.new bounds.new }
{
    let n = c.len();
    check_sizes(n, C::sum_fits(c), out.len())?;
    let degree = n - 1;
    let split = split_for_strategy(settings, degree);
    let leading = relists(settings.strategy);
    let lists = count_lists(leading, degree, degree, split);
    if bounds.len() < lists {
        return Err(Refusal::BoundariesShort);
    }
    let part = &mut out[..n];
    copy_coeffs(c, part);
    list_coeffs(leading, settings.basis, degree, split, 0, 0, part, bounds);
    Ok(Listing {
        degree,
        base: power_of_two(split),
        coefficients: n,
        lists,
    })
}
