// The answers to the lines of one block, written as they are made.
ghost use Rattle.std.specs.Prelude.{◌≡◌, true, take};
ghost use Rattle.std.specs.Io.KnownBytes.{Appends};
ghost use Rattle.answers.specs.Turns.{turn_text};
ghost use Rattle.answers.specs.TakeTurn.{TurnRoom};
ghost use Rattle.planlines.specs.AnswerBlock.{AnswerBlock};

use crate::stream::write_text;
use answers::take_turn;
use std::io::{Eprint, Write};

// How many bytes of an unended line are held, and whether all texts were written. (Both are wanted: how many are held is known after a failure too.)
#[derive(Clone, Copy)]
pub struct Answered {
    pub held: usize,
    pub written: bool,
}

// Answers the lines of a block, the first of which may have begun in the blocks before it: `held` bytes of it stand in `line`.
pub fn answer_block<W: Write>(
    rt: &impl Eprint,
    output: &mut W,
    block: &[u8],
    line: &mut [u8],
    held: usize,
    coefficients: &mut [i64],
    planned: &mut [i64],
    bounds: &mut [u16],
    steps: &mut [u16],
    out: &mut [u8],
) -> Answered
    requires { TurnRoom line.old held coefficients.old planned.old bounds.old steps.old out.old }
    ensures held { AnswerBlock block.now line.old held line.new result }
    ensures written { result.written ≡ true → Appends (W.contents output.old) (W.contents output.new)
        (turn_text (take held line.old) block.now) }
{
    let mut at = 0;
    let mut kept = held;
    let mut written = true;
    // Not a `for`: each turn says how far it read.
    while written && at < block.len() {
        let turn = take_turn(
            block,
            at,
            line,
            kept,
            coefficients,
            planned,
            bounds,
            steps,
            out,
        );
        let text = turn.text;
        written = write_text(rt, output, &out[..text]);
        at = turn.read;
        kept = turn.held;
    }
    Answered {
        held: kept,
        written,
    }
}
