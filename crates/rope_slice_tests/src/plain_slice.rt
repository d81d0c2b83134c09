//! The model of a slice: a list of characters, and the ends of chunks.
use rope_plain::plain_text::{char_to_line, place_of};
use rope_plain::sums::plus;
use ropey::LineBreaks;

/// A range of a text whose chunks are given by their ends.
#[derive(Clone, Copy)]
pub struct PlainSlice<'a> {
    /// The characters of the range alone.
    pub text: &'a [char],
    /// The number of characters of the whole text before it.
    pub before: usize,
    /// The end of each chunk of the whole text, in its characters.
    pub ends: &'a [usize],
    /// The set of line breaks.
    pub breaks: LineBreaks,
}

impl<'a> PlainSlice<'a> {
    /// Returns all of a text.
    pub fn whole(text: &'a [char], ends: &'a [usize], breaks: LineBreaks) -> PlainSlice<'a> {
        PlainSlice {
            text,
            before: 0,
            ends,
            breaks,
        }
    }

    /// Returns its characters from `start` up to `end`.
    pub fn part(&self, start: usize, end: usize) -> PlainSlice<'a> {
        let (front, _) = self.text.split_at(end.min(self.text.len()));
        let (_, text) = front.split_at(start.min(front.len()));
        PlainSlice {
            text,
            before: plus(self.before, start),
            ends: self.ends,
            breaks: self.breaks,
        }
    }

    /// Converts a chunk's `end` in the whole text to one in this range.
    fn clipped(&self, end: usize) -> usize {
        end.saturating_sub(self.before).min(self.text.len())
    }

    /// Returns the start and end of the chunk of a character; at the end of the text those of the
    /// last one.
    pub fn chunk_at(&self, char_idx: usize) -> (usize, usize) {
        let mut start = 0;
        for end in self.ends {
            let end = self.clipped(*end);
            if end > char_idx || end == self.text.len() {
                return (start, end);
            }
            start = end;
        }
        (start, start)
    }

    /// Returns the start and end of the first chunk that ends after `line` line breaks, or else of
    /// the last.
    pub fn chunk_at_line_break(&self, line: usize) -> (usize, usize) {
        let mut start = 0;
        for end in self.ends {
            let end = self.clipped(*end);
            let has_ended = end > 0 && char_to_line(self.text, end, self.breaks) >= line;
            if has_ended || end == self.text.len() {
                return (start, end);
            }
            start = end;
        }
        (start, start)
    }

    /// Returns the numbers of bytes, characters and line breaks that end before an index.
    pub fn counts_before(&self, char_idx: usize) -> (usize, usize, usize) {
        let place = place_of(self.text, char_idx, self.breaks);
        (place.byte, char_idx, place.line)
    }
}
