// The bytes of a line that has not ended, held in a buffer.
ghost use Rattle.std.specs.Prelude.{◌≤◌, ◌≡◌, length};
ghost use Rattle.answers.specs.Limits.{line_room};
ghost use Rattle.answers.specs.inside.Pieces.{Held, Taken};

// What is taken of a block: up to where, how many bytes of the line are held then, and whether a line feed has ended it. (With two variants in place of
// the flag each would have both numbers.)
#[derive(Clone, Copy)]
pub struct Piece {
    pub next: usize,
    pub held: usize,
    pub whole: bool,
}

// Puts bytes behind those that are held, as many as the buffer has places for, and returns how many are held then.
fn hold(line: &mut [u8], held: usize, bytes: &[u8]) -> usize
    requires { held ≤ length line.old }
    ensures { Held line.old held bytes.now line.new result }
{
    let count = bytes.len().min(line.len() - held);
    line[held..held + count].copy_from_slice(&bytes[..count]);
    held + count
}

// Takes the bytes of a block from `at` on up to its first line feed, and holds them with those that are held already.
pub fn take_piece(block: &[u8], at: usize, line: &mut [u8], held: usize) -> Piece
    requires at_in_bounds { at ≤ length block.now }
    requires held_in_bounds { held ≤ length line.old }
    requires line_len { length line.old ≡ line_room }
    ensures { Taken block.now at line.old held line.new result }
{
    let rest = &block[at..];
    let Some(end) = rest.iter().position(|b| *b == b'\n') else {
        return Piece {
            next: block.len(),
            held: hold(line, held, rest),
            whole: false,
        };
    };
    Piece {
        next: at + end + 1,
        held: hold(line, held, &rest[..end]),
        whole: true,
    }
}
