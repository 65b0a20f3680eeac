// The replay of an input: the calls of its lines are made again, and those that agree are counted.
use crate::field::Fields;
use crate::stream::{LINE_BYTES, LineReader};
use std::io;
use std::io::{Print, Read};

// Replays each line of an input by `agrees`, which answers whether our call answers as the line says; a line that is not in its form, or has no call
// that it knows, does not agree. Writes the number of each line that does not agree, and last how many agree and how many don't.
pub fn replay<R: Read, F: Fn(Fields) -> Option<()>>(
    rt: &impl Print,
    input: &mut R,
    agrees: F,
) -> io::Result<()>
    requires { F.IsAlwaysCallable agrees }
{
    let mut text = [0; LINE_BYTES];
    let mut lines = LineReader::new(&mut text);
    let mut passed: u64 = 0;
    let mut failed: u64 = 0;
    for number in 1..=u64::MAX {
        let Some(line) = lines.next_line(input)? else {
            break;
        };
        if agrees(Fields::of(line)).is_some() {
            passed = passed.saturating_add(1);
        } else {
            failed = failed.saturating_add(1);
            println!(rt; "failed: {number}")?;
        }
    }
    println!(rt; "{passed} passed, {failed} failed")
}
