// Plans for the curves on standard input, one a line, as text on standard output (docs/RULES.md, "Lines of planlines").
#![tactic(auto)]

mod block;
mod input;
mod stream;

ghost use Rattle.std.specs.Prelude.{◌≡◌, length};
ghost use Rattle.answers.specs.Limits.{text_room};

use answers::{COEFFICIENT_ROOM, LINE_ROOM, LIST_ROOM, STEP_ROOM, TEXT_ROOM};
use input::write_answers;

// A buffer for text. The contract keeps its length alone, so that no proof looks at a million zeros.
fn text_buffer() -> [u8; TEXT_ROOM]
    ensures { text_room ≡ length result }
{
    [0; TEXT_ROOM]
}

// All memory that the program uses, however long the input is.
fn main(rt: HostRuntime) {
    let mut input = rt.stdin();
    let mut output = rt.stdout();
    let mut block = [0u8; 65536];
    let mut line = [0u8; LINE_ROOM];
    let mut coefficients = [0i64; COEFFICIENT_ROOM];
    let mut planned = [0i64; LIST_ROOM];
    let mut bounds = [0u16; LIST_ROOM];
    let mut steps = [0u16; STEP_ROOM];
    let mut out = text_buffer();
    write_answers(
        &rt,
        &mut input,
        &mut output,
        &mut block,
        &mut line,
        &mut coefficients,
        &mut planned,
        &mut bounds,
        &mut steps,
        &mut out,
    );
}
