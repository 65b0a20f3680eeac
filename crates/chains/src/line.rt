// A line: degree, letters, chain and bits, with tabs between them.
ghost use Rattle.std.specs.Prelude.{[], ◌∷◌, ◌+◌, ◌≤◌, ◌<◌, ◌^◌};
ghost use Rattle.lines.specs.Bytes.{tab};
ghost use Rattle.texts.specs.Put.{Put};
ghost use Rattle.chains.specs.Line.{line_room, setting_text, chain_line};

use crate::letters::Letters;
use texts::decimal::{put, put_number};
use texts::fields::put_number_field;

// Puts a tab and a letter, and returns the place behind them.
fn put_letter_field(out: &mut [u8], at: usize, letter: u8) -> usize
    requires { at < 2 ^ 63 }
    ensures { Put out.old at (tab ∷ letter ∷ []) out.new result }
{
    let next = put(out, at, b'\t');
    put(out, next, letter)
}

// Puts the degree and the letters, at most 26 bytes, and returns the place behind them.
fn put_setting(out: &mut [u8], at: usize, degree: usize, letters: Letters) -> usize
    requires { at < 2 ^ 62 }
    ensures { Put out.old at (setting_text degree letters) out.new result × (result ≤ at + 26) }
{
    let behind = put_number(out, at, degree as u64);
    let basis = put_letter_field(out, behind, letters.basis);
    let parity = put_letter_field(out, basis, letters.parity);
    put_letter_field(out, parity, letters.strategy)
}

// Puts a line, at most 80 bytes, and returns the place behind it.
pub fn put_line(
    out: &mut [u8],
    at: usize,
    degree: usize,
    letters: Letters,
    chain: u64,
    bits: u64,
) -> usize
    requires { at < 2 ^ 62 }
    ensures { Put out.old at (chain_line degree letters chain bits) out.new result × (result ≤ at + line_room) }
{
    let setting = put_setting(out, at, degree, letters);
    let weight = put_number_field(out, setting, chain);
    let closed = put_number_field(out, weight, bits);
    put(out, closed, b'\n')
}
