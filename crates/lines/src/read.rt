// Reading a line.
ghost use Rattle.std.specs.Prelude.{◌≡◌, ◌≤◌, true, IfSome, map, length, drop};
ghost use Rattle.std.proofs.lemmas.List.Edits.{sets};
ghost use Rattle.lines.specs.Line.{are_whole};
ghost use Rattle.lines.specs.Whole.{value_of};
ghost use Rattle.lines.specs.ReadLine.{line_in, ReadLine};
ghost use Rattle.lines.specs.inside.FieldsLeft.{fields_left};
ghost use Rattle.lines.specs.inside.Reading.{opening_of, ReadForm, counted};

use crate::buffer::store;
use crate::field::Fields;
use crate::letter::{read_basis, read_fold, read_parity, read_strategy};
use crate::limits::LINE_LIMIT;
use crate::whole::{is_whole, value_of};
use counts::Settings;
use number::Refusal;

// What a line's letters say: the settings, and whether to fold.
#[derive(Clone, Copy)]
pub struct Opening {
    pub settings: Settings,
    pub fold: bool,
}

// What a line says: the settings, whether to fold, and how many coefficients there are.
#[derive(Clone, Copy)]
pub struct Line {
    pub settings: Settings,
    pub fold: bool,
    pub count: usize,
}

// Reads the letters of the first four fields, and returns what they say, if they are settings.
fn take_opening(fields: &mut Fields) -> Option<Opening>
    ensures opening { result ≡ opening_of (fields_left fields.old) }
    ensures rest { IfSome result (λ _. fields_left fields.new ≡ drop 4 (fields_left fields.old)) }
{
    let basis = read_basis(fields.letter()?)?;
    let parity = read_parity(fields.letter()?)?;
    let strategy = read_strategy(fields.letter()?)?;
    let fold = read_fold(fields.letter()?)?;
    let settings = Settings {
        strategy,
        parity,
        basis,
    };
    Some(Opening { settings, fold })
}

// How many fields there are, if every one of them is a whole number.
fn count_whole(fields: Fields) -> Option<usize>
    requires { length (fields_left fields) ≤ 65536 }
    ensures { result ≡ counted (fields_left fields.entry) }
{
    let mut count = 0;
    for field in fields {
        if !is_whole(field) {
            return None;
        }
        count += 1;
    }
    Some(count)
}

// Writes the values of the fields into the buffer's first places, as many as it has. (Over `buffer.iter_mut().zip(fields)` a proof doesn't see what the
// buffer holds in the end.)
fn fill_values(fields: Fields, buffer: &mut [i64])
    requires few { length (fields_left fields) ≤ 65536 }
    requires whole { are_whole (fields_left fields) ≡ true }
    ensures { buffer.new ≡ sets buffer.old 0 (map value_of (fields_left fields.entry)) }
{
    for (i, field) in fields.enumerate() {
        store(buffer, i, value_of(field));
    }
}

// Reads a line in the form: its settings, how many coefficients it has, and the coefficients, as many as the buffer holds. Any other line is none, and
// leaves the buffer as it was.
fn read_form(line: &[u8], coefficients: &mut [i64]) -> Option<Line>
    ensures { ReadForm line.now coefficients.old result coefficients.new }
{
    if LINE_LIMIT < line.len() {
        return None;
    }
    let mut fields = Fields::of(line);
    let opening = take_opening(&mut fields)?;
    let count = count_whole(fields)?;
    fill_values(fields, coefficients);
    Some(Line {
        settings: opening.settings,
        fold: opening.fold,
        count,
    })
}

// Reads a line: its settings, how many coefficients it has, and the coefficients, as many as the buffer holds. A line that doesn't have the form is refused,
// and leaves the buffer as it was.
pub fn read_line(line: &[u8], coefficients: &mut [i64]) -> Result<Line, Refusal>
    ensures { ReadLine line.now coefficients.old (line_in result) coefficients.new }
{
    read_form(line, coefficients).ok_or(Refusal::LineMalformed)
}
