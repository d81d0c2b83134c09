//! The model of a cursor: an index in a list, and a direction.

use rope_plain::sums::plus;
/// An index among `len` items.
#[derive(Clone, Copy)]
pub struct PlainCursor {
    len: usize,
    place: usize,
    is_backward: bool,
}

impl PlainCursor {
    /// Returns a cursor before the item at an index, or past the last, facing forward.
    pub fn at(len: usize, place: usize) -> PlainCursor {
        PlainCursor {
            len,
            place,
            is_backward: false,
        }
    }

    fn right(&mut self) -> Option<usize> {
        if self.place >= self.len {
            return None;
        }
        let item = self.place;
        self.place = plus(item, 1);
        Some(item)
    }

    fn left(&mut self) -> Option<usize> {
        self.place = self.place.checked_sub(1)?;
        Some(self.place)
    }

    /// Returns the index of the next item.
    pub fn next(&mut self) -> Option<usize> {
        if self.is_backward {
            self.left()
        } else {
            self.right()
        }
    }

    /// Returns the index of the previous item.
    pub fn prev(&mut self) -> Option<usize> {
        if self.is_backward {
            self.right()
        } else {
            self.left()
        }
    }

    /// Reverses the direction.
    pub fn reverse(&mut self) {
        self.is_backward = !self.is_backward;
    }

    /// Returns the number of items left.
    pub fn left_over(&self) -> usize {
        if self.is_backward {
            self.place
        } else {
            self.len.saturating_sub(self.place)
        }
    }
}
