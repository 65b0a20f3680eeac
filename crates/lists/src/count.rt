// How many lists a degree gives: the plan tree without any coefficient.
ghost use Rattle.std.specs.Prelude.{◌≡◌, ◌&&◌, ◌-◌, ◌≤◌, ◌<◌, ◌^◌};
ghost use Rattle.number.specs.Bits.{bit_len};
ghost use Rattle.number.specs.Limits.{plan_limit};
ghost use Rattle.number.specs.inside.Between.{Between};
ghost use Rattle.counts.specs.MinDepth.{min_depth};
ghost use Rattle.lists.specs.Tree.{listed_again, tree_of};
ghost use Rattle.lists.specs.Tree as tree;
ghost use Rattle.lists.specs.Arrange.{leaves_of};
ghost use Rattle.lists.specs.inside.Listing.{Ranges};

use counts::{SplitStrategy, min_depth_of};
use number::{bit_len, power_of_two, top_power};

// Returns whether the strategy lists a leading slice again.
pub fn relists(strategy: SplitStrategy) -> bool
    ensures { result ≡ tree.relists strategy }
{
    matches!(strategy, SplitStrategy::MinDepth)
}

// Returns the split at which a slice is listed again.
pub fn smaller_split(degree: usize) -> usize
    requires { Between 1 degree plan_limit }
    ensures { result ≡ min_depth (bit_len degree) }
{
    min_depth_of(degree)
}

// Returns whether a slice is listed again at a smaller split: the leading one is, near the end of the whole degree's power of two.
pub fn listed_again(leading: bool, whole: usize, degree: usize, split: usize) -> bool
    requires { Ranges whole degree split }
    ensures { result ≡ (leading && listed_again whole degree split) }
{
    if !leading || degree < 1 || split < 2 {
        return false;
    }
    if split <= smaller_split(degree) {
        return false;
    }
    power_of_two(bit_len(whole)) < whole + power_of_two(split - 1)
}

// Returns the number of lists of the low part of a degree from the base on: each is as long as the base.
pub fn low_lists(degree: usize, split: usize) -> usize
    requires { (2 ^ split ≤ degree) × (degree ≤ plan_limit) }
    ensures { result ≡ 2 ^ (bit_len degree - 1 - split) }
{
    power_of_two(bit_len(degree) - 1 - split)
}

// Returns the number of lists of a part of a degree, at a split.
#[cycle(count_lists_count_slice)]
pub fn count_lists(leading: bool, whole: usize, degree: usize, split: usize) -> usize
    requires { Ranges whole degree split }
    ensures { result ≡ leaves_of (tree_of leading whole degree split) }
{
    let base = power_of_two(split);
    if degree < base {
        return count_slice(leading, whole, degree, split);
    }
    let p = top_power(degree);
    let low = low_lists(degree, split);
    let high = count_lists(leading, whole, degree - p, split);
    low + high
}

// Returns the number of lists of a slice: one, or those at the smaller split.
#[cycle(count_lists_count_slice)]
fn count_slice(leading: bool, whole: usize, degree: usize, split: usize) -> usize
    requires { Ranges whole degree split × (degree < 2 ^ split) }
    ensures { result ≡ leaves_of (tree_of leading whole degree split) }
{
    if listed_again(leading, whole, degree, split) {
        return count_lists(leading, whole, degree, smaller_split(degree));
    }
    1
}
