// The lines of an input, any number of them.
ghost use Rattle.std.specs.Prelude.{◌<◌, ◌≤◌, length, IfOk, IfSome};

use std::io;
use std::io::{ErrorKind, Read};

// A line of more bytes is read as an empty one.
pub const LINE_BYTES: usize = 1048576;

// Reads an input line by line. A line stands whole in the buffer, with what was read after it.
#[derive(Drop)]
pub struct LineReader<'a> {
    text: &'a mut [u8],
    // The text that is not yet read into lines has the places `next` up to `end`, with no line feed before `seen`.
    next: usize,
    seen: usize,
    end: usize,
    // The line that goes on at `next` has filled the buffer; it is read as an empty line, which no call agrees with.
    long: bool,
    ghost in_order: { (next ≤ seen) × (seen ≤ end) × (end ≤ length text.now) },
}

impl<'a> LineReader<'a> {
    // Starts before the first line, with a buffer for the text.
    pub fn new(text: &'a mut [u8; LINE_BYTES]) -> Self {
        LineReader {
            text,
            next: 0,
            seen: 0,
            end: 0,
            long: false,
        }
    }

    // Returns the next line, without its line feed, or None where the input is at its end. The text behind the last line feed is a line too.
    pub fn next_line<R: Read>(&mut self, input: &mut R) -> io::Result<Option<&[u8]>> {
        match self.find_end(input)? {
            Some(end) => Ok(Some(self.take(end))),
            None => Ok(None),
        }
    }

    // Reads on until the buffer has all of the next line, and returns the place where it ends. A read that brings nothing is the input's end.
    fn find_end<R: Read>(&mut self, input: &mut R) -> io::Result<Option<usize>>
        ensures { IfOk result (λ found. IfSome found (λ end. end ≤ self.new.end)) }
    {
        for _ in 0..u64::MAX {
            let feed = self.find_feed();
            if feed.is_some() {
                return Ok(feed);
            }
            if self.refill(input)? == 0 {
                break;
            }
        }
        let is_left = self.long || self.next < self.end;
        Ok(is_left.then_some(self.end))
    }

    // Returns the place of the first line feed that was not looked for before. It goes by places: a search by `position` takes more turns of the processor
    // for each byte, and a long line is nothing but this search.
    fn find_feed(&mut self) -> Option<usize>
        ensures { IfSome result (λ feed. feed < self.new.end) }
    {
        let seen = self.seen;
        self.seen = self.end;
        for place in seen..self.end {
            if self.text[place] == b'\n' {
                return Some(place);
            }
        }
        None
    }

    // Returns the line that ends at a place, of which a long one is left out, and goes on behind it and its line feed.
    fn take(&mut self, end: usize) -> &[u8]
        requires { end ≤ self.old.end }
    {
        let from = if self.long { end } else { self.next.min(end) };
        self.next = self.end.min(end + 1);
        self.seen = self.next;
        self.long = false;
        &self.text[from..end]
    }

    // Moves the text that is left to the front, unless it stands there already, reads once behind it, and returns how many bytes came: 0 at the input's
    // end. Text that fills the buffer is let go.
    fn refill<R: Read>(&mut self, input: &mut R) -> io::Result<usize> {
        let mut left = self.end - self.next;
        if 0 < self.next {
            self.text.copy_within(self.next..self.end, 0);
        }
        if left == self.text.len() {
            self.long = true;
            left = 0;
        }
        self.next = 0;
        self.seen = left;
        self.end = left;
        let got = read_once(input, &mut self.text[left..])?;
        self.end = left + got;
        Ok(got)
    }
}

// Reads once, and returns how many bytes came. A read that a signal interrupts is made again.
fn read_once<R: Read>(input: &mut R, buffer: &mut [u8]) -> io::Result<usize>
    ensures { IfOk result (λ got. got ≤ length buffer.old) }
{
    for _ in 0..u64::MAX {
        match input.read(buffer) {
            Err(reason) if reason.kind() == ErrorKind::Interrupted => {}
            got => return got,
        }
    }
    Ok(0)
}
