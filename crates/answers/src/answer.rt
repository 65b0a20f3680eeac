// The answer to a line.
ghost use Rattle.texts.specs.Put.{Put};
ghost use Rattle.answers.specs.Answer.{answer_text};
ghost use Rattle.answers.specs.inside.Rooms.{PlanRoom, AnswerRoom};
ghost use Rattle.answers.specs.inside.TextFor.{text_for};

use lines::{Line, read_line};
use plan::plan;
use texts::line::part_between;
use texts::{put_plan, put_refusal};

// Plans coefficients by a line's settings, on the interval of lines, and puts the text of the plan, or of its refusal; returns the place behind it.
fn put_planned(
    line: Line,
    c: &[i64],
    planned: &mut [i64],
    bounds: &mut [u16],
    steps: &mut [u16],
    at: usize,
    out: &mut [u8],
) -> usize
    requires { PlanRoom planned.old bounds.old steps.old at }
    ensures { Put out.old at (text_for line.settings.strategy line.settings.parity line.settings.basis line.fold c.now)
        out.new result }
{
    let made = plan(
        line.settings,
        line.fold,
        c,
        -1.0,
        1.0,
        planned,
        bounds,
        steps,
    );
    match made {
        Ok(head) => put_plan(head, planned, bounds, steps, at, out),
        Err(refusal) => put_refusal(u8::from(refusal), at, out),
    }
}

// Puts the text of the answer to a line, and returns the place behind it. The other buffers are for what is read and planned: a struct of them would have
// to hold arrays, and so ask for exact lengths, where these may be longer.
pub fn put_answer(
    line: &[u8],
    coefficients: &mut [i64],
    planned: &mut [i64],
    bounds: &mut [u16],
    steps: &mut [u16],
    at: usize,
    out: &mut [u8],
) -> usize
    requires { AnswerRoom coefficients.old planned.old bounds.old steps.old at }
    ensures { Put out.old at (answer_text line.now) out.new result }
{
    match read_line(line, coefficients) {
        Ok(read) => {
            let c = part_between(coefficients, 0, read.count);
            put_planned(read, c, planned, bounds, steps, at, out)
        }
        Err(refusal) => put_refusal(u8::from(refusal), at, out),
    }
}
