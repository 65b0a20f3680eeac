// The input and the output; what is said of a failure begins with the program's name.
ghost use Rattle.std.specs.Prelude.{◌≡◌, true};
ghost use Rattle.std.specs.Io.KnownBytes.{Appends};
ghost use Rattle.streams.specs.BlockRead.{ReadInto, ReadFrom};

use std::io::{Eprint, Read, Write};
use streams::BlockRead;

// Reads one block of the input, and returns what that brought.
pub fn read_block<R: Read>(rt: &impl Eprint, input: &mut R, block: &mut [u8]) -> BlockRead
    ensures into { ReadInto result block.new }
    ensures from { ReadFrom (R.remaining input.old) (R.remaining input.new) result block.new }
{
    streams::read_block(rt, input, block, "planlines: reading")
}

// Writes all of a text, and returns whether it did.
pub fn write_text<W: Write>(rt: &impl Eprint, output: &mut W, text: &[u8]) -> bool
    ensures { result ≡ true → Appends (W.contents output.old) (W.contents output.new) text.now }
{
    streams::write_text(rt, output, text, "planlines: writing")
}
