// The heaviest chain of every zero curve's plan beside the bits of the closed form, as text on standard output: degree 2 to 511, every setting without
// folding (docs/RULES.md, "Lines of chains").
#![tactic(auto)]

mod letters;
mod line;
mod table;
mod weigh;

ghost use Rattle.std.specs.Prelude.{◌≡◌, true, ◌≤◌, length};
ghost use Rattle.std.specs.Io.KnownBytes.{Appends};
ghost use Rattle.chains.specs.Table.{table_room, chains_text};

use std::io::{Eprint, Write};
use streams::write_text;
use table::put_chains;

// Places for all lines, of at most 80 bytes each.
const TABLE_ROOM: usize = 489600;

// A buffer for all lines. The contract keeps its length alone, so that no proof looks at half a million zeros.
fn text_buffer() -> [u8; TABLE_ROOM]
    ensures { table_room ≡ length result }
{
    [0; TABLE_ROOM]
}

// Writes all lines, which are put into the buffer first, and returns whether it did.
fn write_chains<W: Write>(rt: &impl Eprint, output: &mut W, text: &mut [u8]) -> bool
    requires { table_room ≤ length text.old }
    ensures { result ≡ true → Appends (W.contents output.old) (W.contents output.new) chains_text }
{
    let end = put_chains(text);
    write_text(rt, output, &text[..end], "chains: writing")
}

fn main(rt: HostRuntime) {
    let mut output = rt.stdout();
    let mut text = text_buffer();
    write_chains(&rt, &mut output, &mut text);
}
