// The waiting values.
ghost use Rattle.std.specs.Prelude.{◌≡◌, []};
ghost use Rattle.number.specs.Options.{image};
ghost use Rattle.walk.specs.Load.{push_of};
ghost use Rattle.walk.specs.Combine.{join_of};
ghost use Rattle.walk.specs.Walk.{one_left};
ghost use Rattle.walk.specs.inside.Found.{found};
ghost use Rattle.walk.specs.inside.Waits.{last_first};

use crate::arithmetic::Arithmetic;
use crate::limits::WAITING;
use std::marker::Model;

// The first `count` values wait; the last of them was pushed last. Clauses see them as a list, the last one first, and beside it all places.
#[derive(Clone, Copy)]
pub struct Waiting {
    pub values: [u64; WAITING],
    pub count: usize,
}

impl Model for Waiting {
    ghost use Rattle.std.specs.Prelude.{◌≤◌, length};
    ghost use Rattle.std.proofs.Common.{ap};
    ghost use Rattle.walk.specs.Limits.{waiting_limit};
    ghost use Rattle.walk.specs.inside.Waits.{Stack, last_first, length_last_first};

    ghost Value = { Stack };

    ghost view = { λ w. record { list = last_first w.values w.count; places = w.values } };

    ghost invariant = { λ w. w.count ≤ waiting_limit };

    // The list is as long as the count, so that the view has all of both fields, as a copy asks.
    ghost inverse = { λ stack. record { values = stack.places; count = length stack.list } };

    ghost inverse_ok = { λ w _. ap (λ k. record { values = w.values; count = k }) (length_last_first w.values w.count) };
}

impl Waiting {
    // Returns no waiting values.
    pub fn none() -> Waiting
        ensures { result.list ≡ [] }
    {
        Waiting {
            values: [0; WAITING],
            count: 0,
        }
    }

    // Pushes a value, unless 16 wait.
    pub fn push(mut self, v: u64) -> Option<Waiting>
        ensures { image (λ w. w.list) (found result) ≡ push_of self.list v }
    {
        if WAITING <= self.count {
            return None;
        }
        self.values[self.count] = v;
        self.count += 1;
        Some(self)
    }

    // Takes high and low, and pushes what a power makes of them.
    pub fn join<A: Arithmetic>(mut self, plain: bool, power: u64, arithmetic: A) -> Option<Waiting>
        ensures { image (λ w. w.list) (found result) ≡ join_of (A.rules arithmetic) plain power self.list }
    {
        if self.count < 2 {
            return None;
        }
        let high = self.values[self.count - 1];
        let low = self.values[self.count - 2];
        self.values[self.count - 2] = arithmetic.combine(plain, power, high, low);
        self.count -= 1;
        Some(self)
    }

    // Returns the value that is left, if there is just one.
    pub fn one_left(self) -> Option<u64>
        ensures { found result ≡ one_left self.list }
    {
        one_left(&self.values, self.count)
    }
}

// Returns the value that is left of the first `count`, if there is just one. The count may be any.
pub fn one_left(values: &[u64; WAITING], count: usize) -> Option<u64>
    ensures { found result ≡ one_left (last_first values.now count) }
{
    if count != 1 {
        return None;
    }
    Some(values[0])
}
