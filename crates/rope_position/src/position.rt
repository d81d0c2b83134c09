//! Positions, and the conversions between them and characters. No call takes memory.
//!
//! In `"one\ntwo"`, `char_to_position(5)` is line 1, column 1, and `position_to_char` of that is 5.
ghost use Rattle.std.specs.Prelude.{◌≡◌, ◌≤◌, length, None};
ghost use Rattle.rope_text.specs.Content.{Content};
ghost use Rattle.rope_text.specs.Edit.{char_index_error};
ghost use Rattle.rope_text.specs.Position as of_text;
ghost use Rattle.rope_text.specs.Answer.{checked};
ghost use Rattle.rope_position.specs.Positions.{position_at};
ghost use Rattle.rope_position.specs.Encodings.{position_in, clamped_char};

use crate::encoding::Encoding;
use ropey::Result;

/// A position in a text as an editor shows it: a line, and a column in code units, which are of
/// UTF-16 unless a call takes an [`Encoding`].
#[derive(Clone, Copy, PartialEq, Eq, PartialOrd, Ord, Hash, Debug)]
pub struct Position {
    /// The line, from 0.
    pub line: usize,
    /// The number of code units from the start of the line up to the position. They include the
    /// line's break, so a position inside a break or after the last line's text has a column too.
    pub column: usize,
}

/// Texts with positions: ropes and slices.
pub trait Positions {
    ghost shown: { Self → Content };

    /// Converts as `char_to_position` does, for any index.
    ///
    /// # Errors
    ///
    /// `CharIndexOutOfBounds`, with the index and the number of characters, exactly if the index is
    /// past `len_chars()`.
    fn try_char_to_position(&self, char_idx: usize) -> Result<Position>
        ensures { result ≡ checked (char_index_error char_idx (length (shown self.now).text))
            (position_at (shown self.now).breaks (shown self.now).text char_idx) };

    /// Converts as `position_to_char` does, for any position.
    ///
    /// # Errors
    ///
    /// First `LineIndexOutOfBounds`, with the line and the number of lines, if there is no such
    /// line; then `Utf16IndexOutOfBounds`, with the column and the line's number of code units, if
    /// the column is past them.
    fn try_position_to_char(&self, position: Position) -> Result<usize>
        ensures { result
            ≡ checked (of_text.position_error (shown self.now).breaks
            (shown self.now).text position.line position.column)
            (of_text.position_to_char (shown self.now).breaks
            (shown self.now).text position.line position.column) };

    /// Returns the position of the character `char_idx`, or of the end of the text.
    ///
    /// The index is at most `len_chars()`. In `"é\nab"`, `char_to_position(3)` is line 1, column 1.
    fn char_to_position(&self, char_idx: usize) -> Position
        requires { char_idx ≤ length (shown self.now).text }
        ensures { result ≡ position_at (shown self.now).breaks (shown self.now).text char_idx }
    {
        match self.try_char_to_position(char_idx) {
            Ok(position) => position,
            Err(_) => unreachable!(),
        }
    }

    /// Returns the index of the last character of the position's line that begins at the position
    /// or before it: the character that contains the position, also if the column is inside its
    /// surrogate pair. At the line's end it is the start of the next line, or the end of the text.
    ///
    /// There is such a line, and the column is at most its number of code units. In `"é\nab"`, the
    /// character at line 1, column 1 is 3.
    fn position_to_char(&self, position: Position) -> usize
        requires { of_text.position_error (shown self.now).breaks
            (shown self.now).text position.line position.column
            ≡ None }
        ensures { result ≡ of_text.position_to_char (shown self.now).breaks
            (shown self.now).text position.line position.column }
    {
        match self.try_position_to_char(position) {
            Ok(char_idx) => char_idx,
            Err(_) => unreachable!(),
        }
    }

    /// Returns the position of the character `char_idx`, or of the end of the text, with its column
    /// in an encoding's code units.
    ///
    /// # Errors
    ///
    /// `CharIndexOutOfBounds`, with the index and the number of characters, exactly if the index is
    /// past `len_chars()`.
    fn try_char_to_position_in(&self, char_idx: usize, encoding: Encoding) -> Result<Position>
        ensures { result ≡ checked (char_index_error char_idx (length (shown self.now).text))
            (position_in encoding (shown self.now).breaks (shown self.now).text char_idx) };

    /// Returns the position of the character `char_idx`, or of the end of the text, with its column
    /// in an encoding's code units.
    ///
    /// The index is at most `len_chars()`.
    fn char_to_position_in(&self, char_idx: usize, encoding: Encoding) -> Position
        requires { char_idx ≤ length (shown self.now).text }
        ensures { result
            ≡ position_in encoding (shown self.now).breaks (shown self.now).text char_idx }
    {
        match self.try_char_to_position_in(char_idx, encoding) {
            Ok(position) => position,
            Err(_) => unreachable!(),
        }
    }

    /// Returns the character at any position, whose column counts an encoding's code units, as the
    /// Language Server Protocol reads it: a column past the end of its line is the line's end
    /// before its break, and a line past the last one is the end of the text. A column inside a
    /// character is that character.
    fn clamped_position_to_char(&self, position: Position, encoding: Encoding) -> usize
        ensures value { result
            ≡ clamped_char encoding (shown self.now).breaks (shown self.now).text position }
        ensures within { result ≤ length (shown self.now).text };
}
