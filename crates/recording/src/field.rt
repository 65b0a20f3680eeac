// The fields of a line, and those that are words, letters or whole numbers.
use crate::numeral::{digits_value, real_value, same, signed_value};
use number::Refusal;

// The fields of a line that are still to be read.
#[derive(Clone, Copy)]
pub struct Fields<'a> {
    fields: lines::field::Fields<'a>,
}

impl<'a> Fields<'a> {
    // Returns all fields of a line.
    pub fn of(line: &'a [u8]) -> Self {
        Fields {
            fields: lines::field::Fields::of(line),
        }
    }

    // Reads the next field: what stands before a tab or the line's end.
    pub fn next(&mut self) -> Option<&'a [u8]> {
        self.fields.next()
    }

    // Demands that no field is left.
    pub fn end(mut self) -> Option<()> {
        agree(self.next().is_none())
    }

    // Reads a field that is this word.
    pub fn word(&mut self, word: &[u8]) -> Option<()> {
        agree(self.next()? == word)
    }

    // Tells whether a refusal is recorded: its word is the only field that is left.
    pub fn refused(mut self) -> bool {
        matches!(self.next(), Some(b"refused")) && self.next().is_none()
    }

    // Reads a letter: a field of one byte.
    pub fn letter(&mut self) -> Option<u8> {
        self.fields.letter()
    }

    // Reads a decimal number.
    pub fn number(&mut self) -> Option<u64> {
        digits_value(self.next()?, 10)
    }

    // Reads a decimal number as a count.
    pub fn count(&mut self) -> Option<usize> {
        Some(self.number()? as usize)
    }

    // Reads a number that is ours.
    pub fn match_number(&mut self, ours: usize) -> Option<()> {
        agree(self.count()? == ours)
    }

    // Reads our refusal by its number, or 0 where we refuse nothing.
    pub fn match_refusal<T>(&mut self, ours: &Result<T, Refusal>) -> Option<()> {
        match ours {
            Ok(_) => self.match_number(0),
            Err(refusal) => self.match_number(u8::from(*refusal) as usize),
        }
    }

    // Reads decimal digits behind an optional minus, of a number that is an i64.
    pub fn signed(&mut self) -> Option<i64> {
        signed_value(self.next()?)
    }

    // Reads a real number: the 16 hexadecimal digits of its bits, or `nan`.
    pub fn real(&mut self) -> Option<f64> {
        real_value(self.next()?)
    }

    // Reads a real number that is ours.
    pub fn match_real(&mut self, ours: f64) -> Option<()> {
        agree(same(self.real()?, ours))
    }
}

// Goes on where a fact holds.
pub fn agree(fact: bool) -> Option<()> {
    fact.then_some(())
}
