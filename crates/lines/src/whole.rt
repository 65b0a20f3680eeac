// A field as a whole number.
ghost use Rattle.std.specs.Prelude.{◌≡◌, true, ◌<◌, ◌^◌};
ghost use Rattle.lines.specs.Whole.{may_have, is_number, number_of, is_minus, with_sign, unsigned, is_whole, value_of};

use crate::limits::DIGIT_LIMIT;

// Whether a number may have n digits.
fn may_have(n: usize) -> bool
    ensures { result ≡ may_have n }
{
    0 < n && n <= DIGIT_LIMIT
}

// Whether the bytes are 1 to 18 digits.
fn is_number(bytes: &[u8]) -> bool
    ensures { result ≡ is_number bytes.now }
{
    may_have(bytes.len()) && bytes.iter().all(|b| b.is_ascii_digit())
}

// The number that 1 to 18 digits say.
fn number_of(digits: &[u8]) -> u64
    requires { is_number digits.now ≡ true }
    ensures { result ≡ number_of digits.now }
{
    let mut number = 0;
    for digit in digits {
        number = number * 10 + u64::from(*digit - b'0');
    }
    number
}

// Whether the field begins with a minus.
fn is_minus(field: &[u8]) -> bool
    ensures { result ≡ is_minus field.now }
{
    field.first() == Some(&b'-')
}

// What stands behind the minus; the whole field where there is none.
fn unsigned(field: &[u8]) -> &[u8]
    ensures { result.now ≡ unsigned field.now }
{
    match field {
        [b'-', digits @ ..] => digits,
        digits => digits,
    }
}

// A number below 10^18 with a sign.
fn with_sign(minus: bool, number: u64) -> i64
    requires { number < 10 ^ 18 }
    ensures { result ≡ with_sign minus number }
{
    let magnitude = number as i64;
    if minus { -magnitude } else { magnitude }
}

// Whether the field is a whole number.
pub fn is_whole(field: &[u8]) -> bool
    ensures { result ≡ is_whole field.now }
{
    is_number(unsigned(field))
}

// The whole number that the field says.
pub fn value_of(field: &[u8]) -> i64
    requires { is_whole field.now ≡ true }
    ensures { result ≡ value_of field.now }
{
    let minus = is_minus(field);
    let number = number_of(unsigned(field));
    with_sign(minus, number)
}
