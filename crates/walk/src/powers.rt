// The powers that were made.
ghost use Rattle.std.specs.Prelude.{◌≡◌, ◌≤◌};
ghost use Rattle.number.specs.Limits.{plan_limit};
ghost use Rattle.walk.specs.Make.{first_powers, with_power};
ghost use Rattle.walk.specs.inside.Found.{found};

use crate::arithmetic::Arithmetic;
use crate::limits::POWERS;
pub use crate::make::make_power;

// Powers 0 to 4,095, with marks of those that were made. An array of Options would be nearly twice as long, and a walk of a short plan, which takes most
// of its time to set it up, half as slow again.
#[derive(Drop)]
pub struct Powers {
    pub values: [u64; POWERS],
    pub made: [bool; POWERS],
}

impl Powers {
    ghost use Rattle.walk.specs.inside.Powers.{powers_of};

    // Returns the powers at the start: power 0, and power 1, which is y.
    pub fn first<A: Arithmetic>(y: u64, arithmetic: A) -> Powers
        ensures { powers_of result ≡ first_powers (A.rules arithmetic) y }
    {
        let mut values = [0; POWERS];
        let mut made = [false; POWERS];
        values[0] = arithmetic.one();
        values[1] = y;
        made[0] = true;
        made[1] = true;
        Powers { values, made }
    }

    // Returns power n, or `None` where it was not made.
    pub fn get(&self, n: usize) -> Option<u64>
        ensures { found result ≡ powers_of self.now n }
    {
        if n < POWERS && self.made[n] {
            Some(self.values[n])
        } else {
            None
        }
    }

    // Puts power n beside the others.
    pub fn insert(&mut self, n: usize, v: u64)
        requires { n ≤ plan_limit }
        ensures { powers_of self.new ≡ with_power n v (powers_of self.old) }
    {
        self.values[n] = v;
        self.made[n] = true;
    }
}
