// All of an input: block by block, and then its end.
ghost use Rattle.std.specs.Prelude.{◌≡◌, true, ◌≤◌, ◌<◌, length, take, IfSome};
ghost use Rattle.texts.specs.Put.{Put};
ghost use Rattle.answers.specs.TakeTurn.{TurnRoom};
ghost use Rattle.planlines.specs.LastText.{last_text};
ghost use Rattle.planlines.specs.AnswerInput.{AnswerInput};
ghost use Rattle.planlines.specs.BlocksAnswered.{BlocksAnswered, OutputFor};

use crate::block::answer_block;
use crate::stream::{read_block, write_text};
use answers::put_end;
use std::io::{Eprint, Read, Write};
use streams::BlockRead;

// How many bytes of an unended line are held, and what the last read brought.
#[derive(Clone, Copy)]
pub struct Stopped {
    pub held: usize,
    pub last: BlockRead,
}

// What the last read brought, how many bytes of an unended line are held then, and how many bytes of text are put for them.
#[derive(Clone, Copy)]
pub struct Finished {
    pub last: BlockRead,
    pub held: usize,
    pub text: usize,
}

// Answers the lines that line feeds end, and stops where the input ends, or where reading or writing fails. Each answer is written before the next block
// is read.
fn answer_blocks<R: Read, W: Write>(
    rt: &impl Eprint,
    input: &mut R,
    output: &mut W,
    block: &mut [u8],
    line: &mut [u8],
    coefficients: &mut [i64],
    planned: &mut [i64],
    bounds: &mut [u16],
    steps: &mut [u16],
    out: &mut [u8],
) -> Stopped
    requires { TurnRoom line.old 0 coefficients.old planned.old bounds.old steps.old out.old }
    ensures held { result.held ≤ length line.old }
    ensures answered { BlocksAnswered (R.remaining input.old) (R.remaining input.new) (W.contents output.old) (W.contents output.new)
        (take result.held line.new) result.last block.old }
{
    let mut held = 0;
    for _ in 0..u64::MAX {
        let read = read_block(rt, input, block);
        let BlockRead::Bytes(count) = read else {
            return Stopped { held, last: read };
        };
        let some = &block[..count];
        let answered = answer_block(
            rt,
            output,
            some,
            line,
            held,
            coefficients,
            planned,
            bounds,
            steps,
            out,
        );
        held = answered.held;
        if !answered.written {
            return Stopped { held, last: read };
        }
    }
    Stopped {
        held,
        last: BlockRead::Failed,
    }
}

// Puts what is to be written after the last read, and returns its length: where the input ended, the answer to the line that its end ends; else nothing.
fn put_last(
    last: BlockRead,
    line: &[u8],
    held: usize,
    coefficients: &mut [i64],
    planned: &mut [i64],
    bounds: &mut [u16],
    steps: &mut [u16],
    out: &mut [u8],
) -> usize
    requires { TurnRoom line.now held coefficients.old planned.old bounds.old steps.old out.old }
    ensures { Put out.old 0 (last_text last (take held line.now)) out.new result }
{
    let BlockRead::Ended = last else {
        return 0;
    };
    put_end(line, held, coefficients, planned, bounds, steps, out)
}

// Answers every line of the input. The answer to a last line without a line feed is put into `out`, and the caller writes it.
pub fn answer_input<R: Read, W: Write>(
    rt: &impl Eprint,
    input: &mut R,
    output: &mut W,
    block: &mut [u8],
    line: &mut [u8],
    coefficients: &mut [i64],
    planned: &mut [i64],
    bounds: &mut [u16],
    steps: &mut [u16],
    out: &mut [u8],
) -> Finished
    requires { TurnRoom line.old 0 coefficients.old planned.old bounds.old steps.old out.old }
    ensures last { AnswerInput line.new out.new result }
    ensures answered { BlocksAnswered (R.remaining input.old) (R.remaining input.new) (W.contents output.old) (W.contents output.new)
        (take result.held line.new) result.last block.old }
{
    let stopped = answer_blocks(
        rt,
        input,
        output,
        block,
        line,
        coefficients,
        planned,
        bounds,
        steps,
        out,
    );
    let held = stopped.held;
    let last = stopped.last;
    let text = put_last(last, line, held, coefficients, planned, bounds, steps, out);
    Finished { last, held, text }
}

// Answers every line of the input, and returns whether all of it was read and all answers are written: then the output for the input is written.
pub fn write_answers<R: Read, W: Write>(
    rt: &impl Eprint,
    input: &mut R,
    output: &mut W,
    block: &mut [u8],
    line: &mut [u8],
    coefficients: &mut [i64],
    planned: &mut [i64],
    bounds: &mut [u16],
    steps: &mut [u16],
    out: &mut [u8],
) -> bool
    requires { TurnRoom line.old 0 coefficients.old planned.old bounds.old steps.old out.old }
    ensures { result ≡ true → 0 < length block.old → IfSome (R.remaining input.old)
        (OutputFor (W.contents output.old) (W.contents output.new)) }
{
    let finished = answer_input(
        rt,
        input,
        output,
        block,
        line,
        coefficients,
        planned,
        bounds,
        steps,
        out,
    );
    let BlockRead::Ended = finished.last else {
        return false;
    };
    let text = finished.text;
    write_text(rt, output, &out[..text])
}
