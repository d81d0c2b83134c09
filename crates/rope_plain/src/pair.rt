//! A rope with the list of characters that it must have, and edits of both.
use crate::compare::expect_plain;
use crate::failure::Failure;
use crate::numbers::Numbers;
use crate::sums::plus;
use crate::texts::{chars_of, inserted, part_from, take_out};
use ropey::{Error, LineBreaks, Rope};
use std::alloc::{AllocError, Global};

/// A rope, and the list of characters that it must have.
#[derive(Drop)]
pub struct Pair {
    pub rope: Rope,
    pub plain: Vec<char>,
}

impl Pair {
    /// Returns a rope of a text, with a set of line breaks.
    pub fn new(alloc: Global, text: &str, breaks: LineBreaks) -> Result<Pair, Error> {
        Ok(Pair {
            rope: Rope::from_str_with(alloc, text, breaks)?,
            plain: chars_of(alloc, text)?,
        })
    }

    /// Returns a clone of the rope with a copy of the list.
    pub fn copy(&self) -> Result<Pair, Error> {
        let plain = self.plain.clone()?;
        let rope = self.rope.clone()?;
        Ok(Pair { rope, plain })
    }

    /// Draws an index of a character or the end.
    pub fn place(&self, numbers: &mut Numbers) -> usize {
        numbers.up_to(self.plain.len())
    }

    /// Inserts a text before a character.
    pub fn insert(&mut self, alloc: Global, char_idx: usize, text: &str) -> Result<(), Error> {
        self.rope.try_insert(char_idx, text)?;
        self.plain = inserted(alloc, &self.plain, char_idx, text)?;
        Ok(())
    }

    /// Inserts a character before another.
    pub fn insert_char(&mut self, alloc: Global, char_idx: usize, c: char) -> Result<(), Error> {
        self.rope.try_insert_char(char_idx, c)?;
        let mut bytes = [0; 4];
        self.plain = inserted(alloc, &self.plain, char_idx, c.encode_utf8(&mut bytes))?;
        Ok(())
    }

    /// Removes the characters from `start` up to `end`.
    pub fn remove(&mut self, alloc: Global, start: usize, end: usize) -> Result<(), Error> {
        self.rope.try_remove(start..end)?;
        Ok(take_out(alloc, &mut self.plain, start, end)?)
    }

    /// Keeps the front, and returns the back.
    pub fn split_off(&mut self, alloc: Global, char_idx: usize) -> Result<Pair, Error> {
        let plain = part_from(alloc, &self.plain, char_idx)?;
        self.plain.truncate(char_idx);
        let rope = self.rope.try_split_off(char_idx)?;
        Ok(Pair { rope, plain })
    }

    /// Appends another pair.
    pub fn append(&mut self, other: Pair) -> Result<(), Error> {
        let Pair { rope, plain } = other;
        let appended = self.rope.append(rope);
        self.plain.extend_from_slice(&plain)?;
        appended
    }

    /// Fails unless the rope equals its list, by this set of line breaks.
    pub fn expect_same(&self, breaks: LineBreaks) -> Result<(), Failure> {
        expect_plain(&self.rope, &self.plain, breaks)
    }

    /// Returns the end of each chunk, in characters.
    pub fn chunk_ends(&self, alloc: Global) -> Result<Vec<usize>, AllocError> {
        let mut ends = Vec::new(alloc);
        let mut end: usize = 0;
        for chunk in self.rope.chunks() {
            end = plus(end, chunk.chars().count());
            ends.push(end)?;
        }
        Ok(ends)
    }
}
