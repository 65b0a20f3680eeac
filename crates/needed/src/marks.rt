// The powers that a plan needs, as marks: place n is true where power n is needed.
ghost use Rattle.std.specs.Prelude.{◌≡◌, ◌<◌, ◌≤◌, ◌+◌, false, take, replicate};
ghost use Rattle.number.specs.Limits.{count_limit};
ghost use Rattle.needed.specs.Needed.{baby_limit};
ghost use Rattle.needed.specs.NeededList.{is_target, needed_count};
ghost use Rattle.needed.specs.inside.Marks.{padded, mark_at, mark_parts, sweep_from, count_marks, greatest_target, target_marks, needed_marks};

use super::slicing::Slicing;
use algebra::{Basis, Parity};
use number::{PLAN_LIMIT, bit_len, is_allowed, parts_of, power_of_two, top_power};

// A mark for each power from 0 to the greatest degree. The marks are one array of this length, by value, since no memory is allocated.
pub const MARKS: usize = PLAN_LIMIT + 1;

// Says whether power n is needed at once: the top power, or an allowed power from 3 below the limit.
#[tactic(auto, unfolding(crate::specs::NeededList::is_target))]
pub fn is_target(parity: Parity, top: usize, limit: usize, n: usize) -> bool
    ensures { result ≡ is_target parity top limit n }
{
    (n == top && 2 <= n) || (3 <= n && n < limit && is_allowed(parity, n))
}

// Marks n, if it is above 1.
#[tactic(auto, unfolding(crate::specs::inside::Marks::mark_at))]
pub fn mark(n: usize, marks: &mut [bool; MARKS])
    requires { n < count_limit }
    ensures { marks.new ≡ mark_at n marks.old }
{
    if 1 < n {
        marks[n] = true;
    }
}

// Marks the parts of n, and in Chebyshev their distance.
fn mark_parts(basis: Basis, n: usize, marks: &mut [bool; MARKS])
    requires { (2 ≤ n) × (n < count_limit) }
    ensures { marks.new ≡ mark_parts basis n marks.old }
{
    let parts = parts_of(n);
    match basis {
        Basis::Monomial => {}
        Basis::Chebyshev => mark(parts.distance, marks),
    }
    mark(parts.a, marks);
    mark(parts.b, marks);
}

// Marks all that the marked powers need, swept from the last place down.
pub fn sweep(basis: Basis, last: usize, marks: &mut [bool; MARKS])
    requires { last < count_limit }
    ensures { marks.new ≡ sweep_from basis last marks.old }
{
    for n in (2..=last).rev() {
        if marks[n] {
            mark_parts(basis, n, marks);
        }
    }
}

// Counts the marks of the first places.
#[tactic(auto, using(crate::proofs::PlaceLaws::count_true))]
pub fn count_marks(marks: [bool; MARKS], places: usize) -> usize
    requires { places ≤ count_limit }
    ensures { result ≡ count_marks (take places marks) }
{
    marks[..places].iter().map(|mark| usize::from(*mark)).sum()
}

impl Slicing {
    // Returns min(base, degree + 1): below it the allowed powers are needed.
    pub fn baby_limit(self) -> usize
        ensures { result ≡ baby_limit self.degree self.split }
    {
        power_of_two(self.split).min(self.degree + 1)
    }

    // Returns the greatest place that may be needed at once.
    pub fn greatest_target(self) -> usize
        ensures { result ≡ greatest_target self.degree self.split }
    {
        top_power(self.degree).max(self.baby_limit() - 1)
    }

    // Marks the powers that are needed at once.
    fn mark_targets(self, parity: Parity, marks: &mut [bool; MARKS])
        requires { marks.old ≡ replicate count_limit false }
        ensures { marks.new ≡ padded count_limit (target_marks parity self.degree self.split) }
    {
        let top = top_power(self.degree);
        let limit = self.baby_limit();
        for n in 0..=self.greatest_target() {
            marks[n] = is_target(parity, top, limit, n);
        }
    }

    // Returns the marks of all needed powers.
    pub fn needed_marks(self, parity: Parity, basis: Basis) -> [bool; MARKS]
        ensures { result ≡ padded count_limit (needed_marks parity basis self.degree self.split) }
    {
        let mut marks = [false; MARKS];
        self.mark_targets(parity, &mut marks);
        sweep(basis, self.greatest_target(), &mut marks);
        marks
    }

    // Counts the needed powers by the marks of all of them.
    fn count_swept(self, parity: Parity, basis: Basis) -> usize
        ensures { result ≡ needed_count parity basis self.degree self.split }
    {
        count_marks(self.needed_marks(parity, basis), self.greatest_target() + 1)
    }

    // Counts the needed powers: from the base on those of base - 1, and the powers of two from the base on.
    pub fn count_needed(self, parity: Parity, basis: Basis) -> usize
        ensures { result ≡ needed_count parity basis self.degree self.split }
    {
        let base = power_of_two(self.split);
        if self.degree < base {
            return self.count_swept(parity, basis);
        }
        let below = Slicing {
            degree: base - 1,
            split: self.split,
        };
        below.count_swept(parity, basis) + (bit_len(self.degree) - self.split)
    }
}
