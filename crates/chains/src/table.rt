// The lines of all degrees and settings, in their order.
ghost use Rattle.std.specs.Prelude.{◌+◌, ◌≤◌, ◌<◌, ◌^◌};
ghost use Rattle.texts.specs.Put.{Put};
ghost use Rattle.answers.specs.Limits.{list_room};
ghost use Rattle.chains.specs.Line.{line_room};
ghost use Rattle.chains.specs.Table.{line_at, degree_room, degree_text, table_room, chains_text};

use crate::letters::letters_at;
use crate::line::put_line;
use crate::weigh::{closed_bits, weigh_zeros};

// Puts the line of a degree and setting k, and returns the place behind it.
fn put_line_at(out: &mut [u8], at: usize, degree: usize, k: usize) -> usize
    requires at_bound { at < 2 ^ 62 }
    requires degree_lt_list_room { degree < list_room }
    ensures { Put out.old at (line_at degree k) out.new result × (result ≤ at + line_room) }
{
    let letters = letters_at(k);
    let chain = weigh_zeros(letters, degree);
    let bits = closed_bits(letters, degree);
    put_line(out, at, degree, letters, chain, bits)
}

// Puts the lines of a degree, in the order of the settings, and returns the place behind them.
fn put_degree(out: &mut [u8], at: usize, degree: usize) -> usize
    requires at_bound { at < 2 ^ 61 }
    requires degree_lt_list_room { degree < list_room }
    ensures { Put out.old at (degree_text degree) out.new result × (result ≤ at + degree_room) }
{
    let mut next = at;
    for k in 0..12 {
        next = put_line_at(out, next, degree, k);
    }
    next
}

// Puts the lines of all degrees in turn, and returns the place behind them.
pub fn put_chains(out: &mut [u8]) -> usize
    ensures { Put out.old 0 chains_text out.new result × (result ≤ table_room) }
{
    let mut next = 0;
    for degree in 2..512 {
        next = put_degree(out, next, degree);
    }
    next
}
