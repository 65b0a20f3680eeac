// The numbers that a field's bytes spell.
ghost use Rattle.std.specs.Prelude.{◌≡◌, ◌≤◌};
ghost use Rattle.std.specs.Float.{binary64};
ghost use Rattle.std.specs.Float.Ieee.{nan_bits};

// A number is read up to its last digit only while it is below this.
const LIMIT: u64 = 1 << 60;

// The bits of infinity, and the sign's place in the bits of a number.
const INFINITY: u64 = 0x7ff0_0000_0000_0000;

const SIGN: u64 = 1 << 63;

// Returns the value of a hexadecimal digit.
fn digit_value(digit: u8) -> Option<u64> {
    match digit {
        b'0'..=b'9' => Some((digit - b'0') as u64),
        b'a'..=b'f' => Some((digit - b'a') as u64 + 10),
        _ => None,
    }
}

// Returns the number that digits spell in a base of at most 16, if there is a digit, and the number without its last digit is below the limit.
pub fn digits_value(digits: &[u8], base: u64) -> Option<u64>
    requires { base ≤ 16 }
{
    if digits.is_empty() {
        return None;
    }
    let mut value = 0;
    for digit in digits {
        let next = digit_value(*digit)?;
        if base <= next || LIMIT <= value {
            return None;
        }
        value = value * base + next;
    }
    Some(value)
}

// Returns the number that decimal digits spell behind an optional minus, if it is an i64.
pub fn signed_value(field: &[u8]) -> Option<i64> {
    match field {
        [b'-', digits @ ..] => i64::try_from(-(digits_value(digits, 10)? as i128)).ok(),
        digits => i64::try_from(digits_value(digits, 10)?).ok(),
    }
}

// Tells whether these are the bits of a NaN: without the sign they are above those of infinity.
fn is_nan_pattern(bits: u64) -> bool
    ensures { result ≡ nan_bits binary64 bits }
{
    INFINITY < bits % SIGN
}

// Returns the number whose bits 16 hexadecimal digits spell, none of them those of a NaN; the word `nan` stands for any NaN.
pub fn real_value(field: &[u8]) -> Option<f64> {
    match field {
        b"nan" => Some(f64::NAN),
        _ if field.len() == 16 => real_of_bits(digits_value(field, 16)?),
        _ => None,
    }
}

// Returns the number with these bits, if it is no NaN.
fn real_of_bits(bits: u64) -> Option<f64> {
    if is_nan_pattern(bits) {
        return None;
    }
    Some(f64::from_bits(bits))
}

// Tells whether two numbers have the same bits, one NaN counting as any other.
pub fn same(x: f64, y: f64) -> bool {
    if x.is_nan() || y.is_nan() {
        return x.is_nan() && y.is_nan();
    }
    x.to_bits() == y.to_bits()
}
