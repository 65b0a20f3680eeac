// An input, block by block.
ghost use Rattle.std.specs.Prelude.{◌≡◌};
ghost use Rattle.streams.specs.BlockRead.{read_outcome, ReadInto, ReadFrom};

use crate::passing::{is_passing, say_failure};
use std::io;
use std::io::{Eprint, Read};

// What a read brought: so many bytes; none, since the input has ended; none, since reading failed. (Not a Result: what was answered before a failed read is
// promised too, and the reason is said where it is known.)
#[derive(Clone, Copy)]
pub enum BlockRead {
    Bytes(usize),
    Ended,
    Failed,
}

// What a read brought that answered `got`.
fn outcome_of(got: &io::Result<usize>) -> BlockRead
    ensures { result ≡ read_outcome got.now }
{
    let Ok(count) = got else {
        return BlockRead::Failed;
    };
    if *count == 0 {
        return BlockRead::Ended;
    }
    BlockRead::Bytes(*count)
}

// Reads one block of the input, and returns what that brought. Where reading fails, `failure` and the reason are said on standard error.
pub fn read_block<R: Read>(
    rt: &impl Eprint,
    input: &mut R,
    block: &mut [u8],
    failure: &str,
) -> BlockRead
    ensures into { ReadInto result block.new }
    ensures from { ReadFrom (R.remaining input.old) (R.remaining input.new) result block.new }
{
    for _ in 0..u64::MAX {
        let got = input.read(block);
        match &got {
            Err(reason) if is_passing(reason) => {}
            Err(reason) => {
                say_failure(rt, failure, reason);
                return outcome_of(&got);
            }
            Ok(_) => return outcome_of(&got),
        }
    }
    BlockRead::Failed
}
