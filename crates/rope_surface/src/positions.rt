//! The positions of a language server, of ropes and of slices.
ghost use Rattle.std.specs.Prelude.{◌≡◌, ◌≤◌, length, None};
ghost use Rattle.rope_text.specs.Answer.{checked};
ghost use Rattle.rope_text.specs.Edit.{char_index_error};
ghost use Rattle.rope_text.specs.Position.{position_error, position_to_char};
ghost use Rattle.rope_position.specs.Encodings.{clamped_char, position_in};
ghost use Rattle.rope_position.specs.Positions.{PositionsReturn, position_at};

use rope_position::{Encoding, Position, Positions, laws};
use ropey::{Result, Rope, RopeSlice};

/// Makes a position of a line and a column.
pub fn position(line: usize, column: usize) -> Position
    ensures line { result.line ≡ line }
    ensures column { result.column ≡ column }
{
    Position { line, column }
}

/// Returns the position of a character.
pub fn char_to_position<T: Positions>(text: &T, char_idx: usize) -> Position
    requires { char_idx ≤ length (T.shown text.now).text }
    ensures { result ≡ position_at (T.shown text.now).breaks (T.shown text.now).text char_idx }
{
    text.char_to_position(char_idx)
}

/// Returns the character at a position.
pub fn position_to_char<T: Positions>(text: &T, position: Position) -> usize
    requires { position_error (T.shown text.now).breaks (T.shown text.now).text
        position.line position.column ≡ None }
{
    text.position_to_char(position)
}

/// Returns the position of any character.
pub fn try_char_to_position<T: Positions>(text: &T, char_idx: usize) -> Result<Position>
    ensures { result ≡ checked (char_index_error char_idx (length (T.shown text.now).text))
        (position_at (T.shown text.now).breaks (T.shown text.now).text char_idx) }
{
    text.try_char_to_position(char_idx)
}

/// Returns the character at any position.
pub fn try_position_to_char<T: Positions>(text: &T, position: Position) -> Result<usize> {
    text.try_position_to_char(position)
}

/// Returns the encodings, in order.
pub fn encodings() -> [Encoding; 3] {
    [Encoding::Utf8, Encoding::Utf16, Encoding::Utf32]
}

/// Returns the position of a character in an encoding.
pub fn char_to_position_in<T: Positions>(text: &T, char_idx: usize, encoding: Encoding) -> Position
    requires { char_idx ≤ length (T.shown text.now).text }
    ensures { result
        ≡ position_in encoding (T.shown text.now).breaks (T.shown text.now).text char_idx }
{
    text.char_to_position_in(char_idx, encoding)
}

/// Returns the position of any character in an encoding.
pub fn try_char_to_position_in<T: Positions>(
    text: &T,
    char_idx: usize,
    encoding: Encoding,
) -> Result<Position> {
    text.try_char_to_position_in(char_idx, encoding)
}

/// Returns the character at any position, as language servers read it.
pub fn clamped_position_to_char<T: Positions>(
    text: &T,
    position: Position,
    encoding: Encoding,
) -> usize
    ensures { result
        ≡ clamped_char encoding (T.shown text.now).breaks (T.shown text.now).text position }
{
    text.clamped_position_to_char(position, encoding)
}

/// Finds the positions of a character of a rope and of a slice, and compares them.
pub fn positions(rope: &Rope, slice: &RopeSlice<'_>, char_idx: usize) -> Result<bool> {
    let of_rope = try_char_to_position(rope, char_idx)?;
    let of_slice = try_char_to_position(slice, char_idx)?;
    Ok(of_rope == of_slice)
}

/// Holds by the law of positions.
pub fn positions_return()
    ensures { PositionsReturn }
{
    laws::positions_return();
}
