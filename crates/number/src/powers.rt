// Binary digits, and powers of two by a shift.
ghost use Rattle.std.specs.Prelude.{◌≡◌, ◌^◌, ◌≤◌, ◌<◌};
ghost use Rattle.number.specs.Bits.{bit_len, top_power, power_below};

// Returns the number of binary digits of n.
pub fn bit_len(n: usize) -> usize
    ensures { result ≡ bit_len n }
{
    (usize::BITS - n.leading_zeros()) as usize
}

// Returns 2^k.
pub fn power_of_two(k: usize) -> usize
    requires { k < 64 }
    ensures { result ≡ 2 ^ k }
{
    1 << k
}

// Returns the greatest power of two at most n.
pub fn top_power(n: usize) -> usize
    requires { 0 < n }
    ensures { result ≡ top_power n }
{
    power_of_two(bit_len(n) - 1)
}

// Returns the greatest power of two below n.
pub fn power_below(n: usize) -> usize
    requires { 2 ≤ n }
    ensures { result ≡ power_below n }
{
    top_power(n - 1)
}
