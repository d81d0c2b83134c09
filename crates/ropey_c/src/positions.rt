//! Positions as lines and columns, both counted from 0. A column counts UTF-16 code units, or those
//! of an encoding of the Language Server Protocol. Each call costs a few lookups and takes no
//! memory; a call that fails writes nothing.
ghost use Rattle.std.specs.Prelude.{◌≡◌, length, Ok, Some};
ghost use Rattle.rope_text.specs.Edit.{char_index_error};
ghost use Rattle.rope_text.specs.Position as of_text;
ghost use Rattle.rope_text.specs.Answer.{checked};
ghost use Rattle.rope_position.specs.Positions.{position_at};
ghost use Rattle.rope_position.specs.Encodings.{position_in, clamped_char};
ghost use Rattle.ropey_c.specs.Handles.{HoldsRope};
ghost use Rattle.ropey_c.specs.Answers.{AnswersAt};
ghost use Rattle.ropey_c.specs.Places.{IsPlace, PlacesAt, PlacesIn, AnswersIn, given_encoding, place_of};

use crate::lent::Lent;
use crate::macros::{held, ok_or, some_or};
use crate::status::{OK, UNKNOWN_ENCODING, UTF8, UTF16, UTF32, answer, status_of};
use rope_position::{Encoding, Position, Positions};
use ropey::Result;

/// A line, and a column in code units from the start of the line.
#[repr(C)]
#[derive(Clone, Copy)]
pub struct Place {
    pub line: usize,
    pub column: usize,
}

// Writes a position that was found.
fn answer_place(found: Result<Position>, place: &mut Place) -> u32
    ensures { IsPlace found result place.old place.new }
{
    let position = ok_or!(found, status_of);
    *place = Place {
        line: position.line,
        column: position.column,
    };
    OK
}

/// Writes the position of the character `char_idx`, counted from 0, or of the end of the text.
///
/// # Errors
///
/// `NO_ROPE_HELD`, then `CHAR_INDEX_OUT_OF_BOUNDS`.
#[unsafe(no_mangle)]
pub extern "C" fn ropey_char_to_position(rope: &Lent, char_idx: usize, place: &mut Place) -> u32
    ensures answer { PlacesAt rope.now.rope
        (λ r. checked (char_index_error char_idx (length r.text))
        (position_at r.breaks r.text char_idx))
        result place.old place.new }
    ensures kept { HoldsRope rope.now.rope }
{
    answer_place(held!(rope).try_char_to_position(char_idx), place)
}

/// Writes the last character of the line that begins at the column or before it; at the line's end,
/// the start of the next line, or the end of the text.
///
/// # Errors
///
/// `NO_ROPE_HELD`, then `LINE_INDEX_OUT_OF_BOUNDS`, where there is no such line, then
/// `UTF16_INDEX_OUT_OF_BOUNDS`, where the column is past the line's code units.
#[unsafe(no_mangle)]
pub extern "C" fn ropey_position_to_char(
    rope: &Lent,
    line: usize,
    column: usize,
    char_idx: &mut usize,
) -> u32
    ensures answer { AnswersAt rope.now.rope
        (λ r. checked (of_text.position_error r.breaks r.text line column)
        (of_text.position_to_char r.breaks r.text line column))
        result char_idx.old char_idx.new }
    ensures kept { HoldsRope rope.now.rope }
{
    let found = held!(rope).try_position_to_char(Position { line, column });
    answer(found, char_idx)
}

// The encoding that a number stands for.
fn given_encoding(number: u32) -> Option<Encoding>
    ensures { result ≡ given_encoding number }
{
    match number {
        UTF8 => Some(Encoding::Utf8),
        UTF16 => Some(Encoding::Utf16),
        UTF32 => Some(Encoding::Utf32),
        _ => None,
    }
}

/// Writes to `place` the position of the character `char_idx`, counted from 0, or of the end of the
/// text, with its column in code units of an encoding.
///
/// # Errors
///
/// `NO_ROPE_HELD`, then `UNKNOWN_ENCODING`, then `CHAR_INDEX_OUT_OF_BOUNDS`.
#[unsafe(no_mangle)]
pub extern "C" fn ropey_char_to_position_in(
    rope: &Lent,
    char_idx: usize,
    encoding: u32,
    place: &mut Place,
) -> u32
    ensures answer { PlacesIn rope.now.rope (given_encoding encoding)
        (λ e r. checked (char_index_error char_idx (length r.text))
        (position_in e r.breaks r.text char_idx))
        result place.old place.new }
    ensures kept { HoldsRope rope.now.rope }
{
    let held = held!(rope);
    let encoding = some_or!(given_encoding(encoding), UNKNOWN_ENCODING);
    answer_place(held.try_char_to_position_in(char_idx, encoding), place)
}

/// Writes to `char_idx` the character at a position, whose column counts code units of an encoding,
/// as the Language Server Protocol reads it: a column past the end of its line is the line's end
/// before its break, and a line past the last one is the end of the text. A column inside a
/// character is that character.
///
/// # Errors
///
/// `NO_ROPE_HELD`, then `UNKNOWN_ENCODING`.
#[unsafe(no_mangle)]
pub extern "C" fn ropey_clamped_position_to_char(
    rope: &Lent,
    line: usize,
    column: usize,
    encoding: u32,
    char_idx: &mut usize,
) -> u32
    ensures answer { AnswersIn rope.now.rope (given_encoding encoding)
        (λ e r. Ok (clamped_char e r.breaks r.text (place_of line column)))
        result char_idx.old char_idx.new }
    ensures kept { HoldsRope rope.now.rope }
{
    let held = held!(rope);
    let encoding = some_or!(given_encoding(encoding), UNKNOWN_ENCODING);
    *char_idx = held.clamped_position_to_char(Position { line, column }, encoding);
    OK
}
