// Bytes and numbers as text, from a place of a buffer on. A place behind the buffer takes nothing.
ghost use Rattle.std.specs.Prelude.{◌≡◌, [], ◌∷◌, ◌+◌, ◌<◌};
ghost use Rattle.lines.specs.Bytes.{digit0};
ghost use Rattle.texts.specs.Decimal.{digits_of, decimal, signed_decimal};
ghost use Rattle.texts.specs.Put.{Put};
ghost use Rattle.texts.specs.inside.EndsIn64Bits.{EndsIn64Bits};

use lines::store;

// Puts one byte, and returns the place behind it.
pub fn put(out: &mut [u8], at: usize, byte: u8) -> usize
    requires { EndsIn64Bits at (byte ∷ []) }
    ensures { Put out.old at (byte ∷ []) out.new result }
{
    store(out, at, byte);
    at + 1
}

// The byte that shows a digit.
fn digit(d: u64) -> u8
    requires { d < 10 }
    ensures { result ≡ digit0 + d }
{
    b'0' + d as u8
}

// Puts the digits of a number, none for 0, and returns the place behind them.
fn put_digits(out: &mut [u8], at: usize, n: u64) -> usize
    requires { EndsIn64Bits at (digits_of n) }
    ensures { Put out.old at (digits_of n) out.new result }
{
    if n == 0 {
        return at;
    }
    let next = put_digits(out, at, n / 10);
    put(out, next, digit(n % 10))
}

// Puts a number, and returns the place behind it.
pub fn put_number(out: &mut [u8], at: usize, n: u64) -> usize
    requires { EndsIn64Bits at (decimal n) }
    ensures { Put out.old at (decimal n) out.new result }
{
    if n == 0 {
        return put(out, at, b'0');
    }
    put_digits(out, at, n)
}

// Puts a whole number, and returns the place behind it.
pub fn put_signed(out: &mut [u8], at: usize, z: i64) -> usize
    requires { EndsIn64Bits at (signed_decimal z) }
    ensures { Put out.old at (signed_decimal z) out.new result }
{
    if z < 0 {
        let next = put(out, at, b'-');
        return put_number(out, next, z.unsigned_abs());
    }
    put_number(out, at, z as u64)
}
