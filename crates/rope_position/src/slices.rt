//! Positions in slices: a line, and a column in code units.
ghost use Rattle.std.specs.Prelude.{◌≡◌, ◌≤◌, length};
ghost use Rattle.rope_slice.specs.Slice.{text_of};
ghost use Rattle.rope_position.specs.Encodings.{clamped_column};

use crate::encoding::Encoding;
use crate::position::{Position, Positions};
use ropey::{Error, Result, RopeSlice};

impl<'a> Positions for RopeSlice<'a> {
    ghost use Rattle.rope_slice.specs.Slice.{content_of};

    ghost shown = { content_of };

    fn try_char_to_position(&self, char_idx: usize) -> Result<Position> {
        let len = self.len_chars();
        if char_idx > len {
            return Err(Error::CharIndexOutOfBounds(char_idx, len));
        }
        let line = self.char_to_line(char_idx);
        let before = self.char_to_utf16_cu(self.line_to_char(line));
        let column = self.char_to_utf16_cu(char_idx) - before;
        Ok(Position { line, column })
    }

    fn try_position_to_char(&self, position: Position) -> Result<usize> {
        let lines = self.len_lines();
        if position.line >= lines {
            return Err(Error::LineIndexOutOfBounds(position.line, lines));
        }
        // the number of characters fits a `usize`, so the sum fits
        let _ = self.len_chars();
        let line = self.line(position.line);
        match line.try_utf16_cu_to_char(position.column) {
            Ok(inside) => Ok(self.line_to_char(position.line) + inside),
            Err(error) => Err(error),
        }
    }

    fn try_char_to_position_in(&self, char_idx: usize, encoding: Encoding) -> Result<Position> {
        let len = self.len_chars();
        if char_idx > len {
            return Err(Error::CharIndexOutOfBounds(char_idx, len));
        }
        let line = self.char_to_line(char_idx);
        let start = self.line_to_char(line);
        let column = match encoding {
            Encoding::Utf8 => self.char_to_byte(char_idx) - self.char_to_byte(start),
            Encoding::Utf16 => self.char_to_utf16_cu(char_idx) - self.char_to_utf16_cu(start),
            Encoding::Utf32 => char_idx - start,
        };
        Ok(Position { line, column })
    }

    fn clamped_position_to_char(&self, position: Position, encoding: Encoding) -> usize {
        let len = self.len_chars();
        if position.line >= self.len_lines() {
            return len;
        }
        let line = self.line(position.line).without_break();
        self.line_to_char(position.line) + char_at_column(&line, position.column, encoding)
    }
}

// Returns the character at a column of a text, or its end if the column is past it.
fn char_at_column(text: &RopeSlice<'_>, column: usize, encoding: Encoding) -> usize
    ensures value { result ≡ clamped_column encoding (text_of text.now) column }
    ensures within { result ≤ length (text_of text.now) }
{
    match encoding {
        Encoding::Utf8 => text.byte_to_char(column.min(text.len_bytes())),
        Encoding::Utf16 => text.utf16_cu_to_char(column.min(text.len_utf16_cu())),
        Encoding::Utf32 => column.min(text.len_chars()),
    }
}
