//! Cursors of any kind, as a trait.
use ropey::RopeSlice;
use ropey::iter::{Bytes, Chars, Chunks, Lines};

/// An item of a cursor.
#[derive(Clone, Copy)]
pub enum Item<'a> {
    Byte(u8),
    Char(char),
    Chunk(&'a str),
    Line(RopeSlice<'a>),
}

/// A cursor of any kind.
pub trait Walker<'a> {
    fn ahead(&mut self) -> Option<Item<'a>>;

    fn back(&mut self) -> Option<Item<'a>>;

    fn turn(&mut self);
    /// Returns the number of items left, if the cursor knows it.
    fn left_over(&self) -> Option<usize>;
}

impl<'a> Walker<'a> for Bytes<'a> {
    fn ahead(&mut self) -> Option<Item<'a>> {
        Some(Item::Byte(self.next()?))
    }

    fn back(&mut self) -> Option<Item<'a>> {
        Some(Item::Byte(self.prev()?))
    }

    fn turn(&mut self) {
        self.reverse();
    }

    fn left_over(&self) -> Option<usize> {
        Some(self.len())
    }
}

impl<'a> Walker<'a> for Chars<'a> {
    fn ahead(&mut self) -> Option<Item<'a>> {
        Some(Item::Char(self.next()?))
    }

    fn back(&mut self) -> Option<Item<'a>> {
        Some(Item::Char(self.prev()?))
    }

    fn turn(&mut self) {
        self.reverse();
    }

    fn left_over(&self) -> Option<usize> {
        Some(self.len())
    }
}

impl<'a> Walker<'a> for Chunks<'a> {
    fn ahead(&mut self) -> Option<Item<'a>> {
        Some(Item::Chunk(self.next()?))
    }

    fn back(&mut self) -> Option<Item<'a>> {
        Some(Item::Chunk(self.prev()?))
    }

    fn turn(&mut self) {
        self.reverse();
    }

    fn left_over(&self) -> Option<usize> {
        None
    }
}

impl<'a> Walker<'a> for Lines<'a> {
    fn ahead(&mut self) -> Option<Item<'a>> {
        Some(Item::Line(self.next()?))
    }

    fn back(&mut self) -> Option<Item<'a>> {
        Some(Item::Line(self.prev()?))
    }

    fn turn(&mut self) {
        self.reverse();
    }

    fn left_over(&self) -> Option<usize> {
        Some(self.len())
    }
}
