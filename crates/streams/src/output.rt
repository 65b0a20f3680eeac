// An output, to which texts are written whole.
ghost use Rattle.std.specs.Prelude.{◌≡◌, true};
ghost use Rattle.std.specs.Io.{WritesAtMost};
ghost use Rattle.std.specs.Io.KnownBytes.{Appends, WriteAppends};

use crate::passing::{is_passing, say_failure};
use std::io;
use std::io::{Eprint, ErrorKind, Write};

// Writes the first bytes of a text, and returns how many: none where the write is to be made again.
fn write_some<W: Write>(output: &mut W, text: &[u8]) -> io::Result<usize>
    ensures bound { WritesAtMost result text.now }
    ensures bytes { WriteAppends (W.contents output.old) (W.contents output.new) result text.now }
{
    match output.write(text) {
        Ok(0) => Err(io::Error::from(ErrorKind::WriteZero)),
        Ok(count) => Ok(count),
        Err(reason) => {
            if is_passing(&reason) {
                Ok(0)
            } else {
                Err(reason)
            }
        }
    }
}

// Writes all of a text, and returns whether it did. Where writing fails, `failure` and the reason are said on standard error, so that no caller needs the
// reason.
pub fn write_text<W: Write>(rt: &impl Eprint, output: &mut W, text: &[u8], failure: &str) -> bool
    ensures { result ≡ true → Appends (W.contents output.old) (W.contents output.new) text.now }
{
    let mut rest = text;
    for _ in 0..u64::MAX {
        if rest.is_empty() {
            return true;
        }
        match write_some(output, rest) {
            Ok(count) => rest = &rest[count..],
            Err(reason) => {
                say_failure(rt, failure, &reason);
                return false;
            }
        }
    }
    rest.is_empty()
}
