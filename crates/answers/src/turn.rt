// The lines of a block: each is answered when its line feed is there.
ghost use Rattle.std.specs.Prelude.{◌≡◌, ◌≤◌, length, take};
ghost use Rattle.texts.specs.Put.{Put};
ghost use Rattle.answers.specs.Turns.{end_text};
ghost use Rattle.answers.specs.TakeTurn.{TurnRoom, TakeTurn};
ghost use Rattle.answers.specs.inside.Rooms.{AnswerRoom};
ghost use Rattle.answers.specs.inside.Pieces.{piece_text, held_after};

use crate::answer::put_answer;
use crate::hold::{Piece, take_piece};
use crate::limits::TEXT_LIMIT;

// How far a block is read, how many bytes of an unended line are held, and how many bytes of text are put.
#[derive(Clone, Copy)]
pub struct Turn {
    pub read: usize,
    pub held: usize,
    pub text: usize,
}

// Puts the text of the answer to a line that a piece ends, nothing for one that it doesn't end, and returns the place behind it.
fn put_piece(
    piece: Piece,
    line: &[u8],
    coefficients: &mut [i64],
    planned: &mut [i64],
    bounds: &mut [u16],
    steps: &mut [u16],
    at: usize,
    out: &mut [u8],
) -> usize
    requires answer_room { AnswerRoom coefficients.old planned.old bounds.old steps.old at }
    requires held_in_bounds { piece.held ≤ length line.now }
    ensures { Put out.old at (piece_text piece line.now) out.new result }
{
    if !piece.whole {
        return at;
    }
    let held = piece.held;
    put_answer(&line[..held], coefficients, planned, bounds, steps, at, out)
}

// How many bytes are held behind a piece.
fn held_after(piece: Piece) -> usize
    ensures { result ≡ held_after piece }
{
    if piece.whole { 0 } else { piece.held }
}

// Takes the lines of a block from `from` on, and puts their answers into `out` while it has room for one more of any length.
pub fn take_turn(
    block: &[u8],
    from: usize,
    line: &mut [u8],
    held: usize,
    coefficients: &mut [i64],
    planned: &mut [i64],
    bounds: &mut [u16],
    steps: &mut [u16],
    out: &mut [u8],
) -> Turn
    requires turn_room { TurnRoom line.old held coefficients.old planned.old bounds.old steps.old out.old }
    requires from_in_bounds { from ≤ length block.now }
    ensures { TakeTurn block.now from line.old held out.old line.new out.new result }
{
    let most = out.len() - TEXT_LIMIT;
    let mut at = from;
    let mut kept = held;
    let mut text = 0;
    // Not a `for`: each piece says where the next one begins.
    while at < block.len() {
        if most < text {
            break;
        }
        let piece = take_piece(block, at, line, kept);
        text = put_piece(piece, line, coefficients, planned, bounds, steps, text, out);
        at = piece.next;
        kept = held_after(piece);
    }
    Turn {
        read: at,
        held: kept,
        text,
    }
}

// Puts the text at the input's end, the answer to the line that has not ended, if a byte of it is held, and returns its length.
pub fn put_end(
    line: &[u8],
    held: usize,
    coefficients: &mut [i64],
    planned: &mut [i64],
    bounds: &mut [u16],
    steps: &mut [u16],
    out: &mut [u8],
) -> usize
    requires answer_room { AnswerRoom coefficients.old planned.old bounds.old steps.old 0 }
    requires held_in_bounds { held ≤ length line.now }
    ensures { Put out.old 0 (end_text (take held line.now)) out.new result }
{
    if held == 0 {
        return 0;
    }
    put_answer(&line[..held], coefficients, planned, bounds, steps, 0, out)
}
