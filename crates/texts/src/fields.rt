// Fields, and lines of them.
ghost use Rattle.std.specs.Prelude.{◌∷◌, map, ◌+◌, ◌*◌, ◌≤◌, ◌<◌, ◌^◌, length};
ghost use Rattle.lines.specs.Bytes.{tab};
ghost use Rattle.texts.specs.Decimal.{decimal, signed_decimal};
ghost use Rattle.texts.specs.Text.{fields_text, numbers_line, list_line};
ghost use Rattle.texts.specs.Put.{Put};
ghost use Rattle.texts.specs.inside.EndsIn64Bits.{EndsIn64Bits};

use crate::decimal::{put, put_number, put_signed};

// Puts a tab and a number, and returns the place behind them.
pub fn put_number_field(out: &mut [u8], at: usize, n: u64) -> usize
    requires { EndsIn64Bits at (tab ∷ decimal n) }
    ensures { Put out.old at (tab ∷ decimal n) out.new result }
{
    let next = put(out, at, b'\t');
    put_number(out, next, n)
}

// Puts a tab and a whole number, and returns the place behind them.
fn put_signed_field(out: &mut [u8], at: usize, z: i64) -> usize
    requires { EndsIn64Bits at (tab ∷ signed_decimal z) }
    ensures { Put out.old at (tab ∷ signed_decimal z) out.new result }
{
    let next = put(out, at, b'\t');
    put_signed(out, next, z)
}

// Puts numbers, with a tab in front of each, and returns the place behind them.
pub fn put_number_fields(out: &mut [u8], from: usize, ns: &[u64]) -> usize
    requires { EndsIn64Bits from (fields_text (map decimal ns.now)) }
    ensures { Put out.old from (fields_text (map decimal ns.now)) out.new result }
{
    let mut at = from;
    for n in ns {
        at = put_number_field(out, at, *n);
    }
    at
}

// Puts whole numbers, with a tab in front of each, at most 22 bytes a number, and returns the place behind them.
fn put_signed_fields(out: &mut [u8], from: usize, c: &[i64]) -> usize
    requires { from + length c.now * 22 < 2 ^ 64 }
    ensures { Put out.old from (fields_text (map signed_decimal c.now)) out.new result
        × (result ≤ from + length c.now * 22) }
{
    let mut at = from;
    for z in c {
        at = put_signed_field(out, at, *z);
    }
    at
}

// Puts a line of at most 65,535 numbers, and returns the place behind it.
pub fn put_numbers_line(out: &mut [u8], at: usize, letter: u8, ns: &[u64]) -> usize
    requires { (at < 2 ^ 63) × (length ns.now ≤ 65535) }
    ensures { Put out.old at (numbers_line letter ns.now) out.new result }
{
    let start = put(out, at, letter);
    let end = put_number_fields(out, start, ns);
    put(out, end, b'\n')
}

// Puts the line of a list of at most 65,535 coefficients, and returns the place behind it.
pub fn put_list_line(out: &mut [u8], at: usize, c: &[i64]) -> usize
    requires { (at < 2 ^ 63) × (length c.now ≤ 65535) }
    ensures { Put out.old at (list_line c.now) out.new result }
{
    let start = put(out, at, b'L');
    let behind = put_signed_fields(out, start, c);
    put(out, behind, b'\n')
}
