// The fields of a line.
ghost use Rattle.std.specs.Prelude.{◌≡◌, drop};
ghost use Rattle.std.specs.Iterator.{YieldsFirstBy, item_count};
ghost use Rattle.lines.specs.Fields.{fields, first};
ghost use Rattle.lines.specs.inside.FieldsLeft.{fields_left, letter_in};

// The fields of a line that are still to be read: those of the rest of the line, and none where there is no rest.
#[derive(Clone, Copy)]
pub struct Fields<'a> {
    rest: Option<&'a [u8]>,
}

impl<'a> Fields<'a> {
    // All fields of a line.
    pub fn of(line: &'a [u8]) -> Fields<'a>
        ensures { fields_left result ≡ fields line.now }
    {
        Fields { rest: Some(line) }
    }

    // Reads a field, and returns its byte if it has just one.
    pub fn letter(&mut self) -> Option<u8>
        ensures letter { result ≡ letter_in (first (fields_left self.old)) }
        ensures rest { fields_left self.new ≡ drop 1 (fields_left self.old) }
    {
        match self.next() {
            Some([letter]) => Some(*letter),
            _ => None,
        }
    }
}

impl<'a> Iterator for Fields<'a> {
    type Item = &'a [u8];

    ghost next_gives = { YieldsFirstBy (λ field. field.now) fields_left };

    ghost remaining = { item_count fields_left };

    // Reads a field: the bytes up to a tab, or to the line's end.
    fn next(&mut self) -> Option<&'a [u8]> {
        let line = self.rest?;
        match line.iter().position(|b| *b == b'\t') {
            Some(end) => {
                self.rest = Some(&line[end + 1..]);
                Some(&line[..end])
            }
            None => {
                self.rest = None;
                Some(line)
            }
        }
    }
}
