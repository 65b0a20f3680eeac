// Splitting an index into the two powers that make it.
ghost use Rattle.std.specs.Prelude.{◌≡◌, ◌≤◌};
ghost use Rattle.number.specs.Limits.{degree_limit};
ghost use Rattle.number.specs.Split.{parts_in, split_of};

use crate::limits::DEGREE_LIMIT;
use crate::powers::power_below;
use crate::refusal::Refusal;

// The two parts of an index, and their distance.
#[derive(Clone, Copy, Debug, PartialEq, Eq)]
pub struct Split {
    pub a: usize,
    pub b: usize,
    pub distance: usize,
}

// The two parts of an index from 2 to 4,294,967,295.
pub fn parts_of(n: usize) -> Split
    requires { (2 ≤ n) × (n ≤ degree_limit) }
    ensures { parts_in (Ok result) ≡ split_of n }
{
    let p = power_below(n);
    if n == p + p {
        return Split {
            a: n / 2,
            b: n / 2,
            distance: 0,
        };
    }
    let a = p - 1;
    let b = n + 1 - p;
    Split {
        a,
        b,
        distance: a.abs_diff(b),
    }
}

// The two parts of n and their distance. It refuses an index below 2 or above 4,294,967,295.
pub fn split_degree(n: usize) -> Result<Split, Refusal>
    ensures { parts_in result ≡ split_of n }
{
    if n < 2 || DEGREE_LIMIT < n {
        return Err(Refusal::IndexOutOfRange);
    }
    Ok(parts_of(n))
}
