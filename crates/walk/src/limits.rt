// The walk's own limits: the numbers of specs/Limits, and the places for powers.
use number::PLAN_LIMIT;

// The powers 0 to 4,095.
pub const POWERS: usize = PLAN_LIMIT + 1;

// The most values that wait.
pub const WAITING: usize = 16;

// The greatest trial modulus.
pub const MODULUS_LIMIT: u64 = 2147483647;
