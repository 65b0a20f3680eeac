// Lists: the field with the count, and then a field for each element.
use crate::field::{Fields, agree};
use crate::numeral::same;

// An element of a list: a whole number, a number below 65,536 or a real number.
pub trait Element: Copy {
    // Reads an element.
    fn read(fields: &mut Fields) -> Option<Self>;

    // Tells whether two elements are the same.
    fn is_same(self, other: Self) -> bool;
}

impl Element for i64 {
    fn read(fields: &mut Fields) -> Option<i64> {
        fields.signed()
    }

    fn is_same(self, other: i64) -> bool {
        self == other
    }
}

impl Element for u16 {
    fn read(fields: &mut Fields) -> Option<u16> {
        u16::try_from(fields.number()?).ok()
    }

    fn is_same(self, other: u16) -> bool {
        self == other
    }
}

impl Element for f64 {
    fn read(fields: &mut Fields) -> Option<f64> {
        fields.real()
    }

    fn is_same(self, other: f64) -> bool {
        same(self, other)
    }
}

impl Fields<'_> {
    // Reads so many elements into the first places of a buffer, and returns these places.
    pub fn run<'b, T: Element>(&mut self, count: usize, buffer: &'b mut [T]) -> Option<&'b [T]> {
        if buffer.len() < count {
            return None;
        }
        let places = &mut buffer[..count];
        for place in places.iter_mut() {
            *place = T::read(self)?;
        }
        Some(places)
    }

    // Reads a list into the first places of a buffer, and returns these places.
    pub fn list<'b, T: Element>(&mut self, buffer: &'b mut [T]) -> Option<&'b [T]> {
        let count = self.count()?;
        self.run(count, buffer)
    }

    // Reads a list that is ours.
    pub fn match_list<T: Element>(&mut self, ours: &[T]) -> Option<()> {
        self.match_number(ours.len())?;
        for element in ours {
            agree(T::read(self)?.is_same(*element))?;
        }
        Some(())
    }

    // Reads a list that stands in the first `count` places of a buffer of ours, which behind them is as it was before.
    pub fn match_written<T: Element>(&mut self, ours: &[T], count: usize, before: T) -> Option<()> {
        let (written, rest) = ours.split_at_checked(count)?;
        agree(are_all(rest, before))?;
        self.match_list(written)
    }

    // Reads a list that a buffer of ours begins with; behind it the buffer is as it was before.
    pub fn match_filled<T: Element>(&mut self, ours: &[T], before: T) -> Option<()> {
        let mut ahead = *self;
        self.match_written(ours, ahead.count()?, before)
    }

    // Reads a number of lists that are ours: each lies from one boundary to the next, the first from the beginning.
    pub fn match_lists<T: Element>(&mut self, ours: &[T], boundaries: &[u16]) -> Option<()> {
        self.match_number(boundaries.len())?;
        let mut rest = ours;
        let mut from = 0;
        for boundary in boundaries {
            let (list, behind) = rest.split_at_checked((*boundary as usize).checked_sub(from)?)?;
            self.match_list(list)?;
            from = *boundary as usize;
            rest = behind;
        }
        Some(())
    }
}

// Tells whether every element is this one.
pub fn are_all<T: Element>(elements: &[T], element: T) -> bool {
    elements.iter().all(|e| e.is_same(element))
}
