//! Conversions between the indices of a rope: bytes, characters, UTF-16 code units and lines, all
//! counted from 0.
//!
//! Each costs one lookup and takes no memory. A call that fails writes nothing.
ghost use Rattle.std.specs.Prelude.{◌≡◌, length};
ghost use Rattle.rope_text.specs.Text.{byte_len, utf16_len};
ghost use Rattle.rope_text.specs.Lines.{line_count};
ghost use Rattle.rope_text.specs.Conversions.{byte_to_char, byte_to_line, char_to_byte, char_to_line, char_to_utf16, line_to_byte, line_to_char, utf16_to_char};
ghost use Rattle.rope_text.specs.Edit.{byte_index_error, char_index_error, line_index_error, utf16_index_error};
ghost use Rattle.rope_text.specs.Answer.{checked};
ghost use Rattle.ropey_c.specs.Handles.{HoldsRope};
ghost use Rattle.ropey_c.specs.Answers.{AnswersAt};

use crate::lent::Lent;
use crate::macros::held;
use crate::status::answer;

/// Writes the character that holds the byte `byte_idx`, also if the byte is inside the character;
/// at the end of the text, the number of characters.
///
/// # Errors
///
/// `NO_ROPE_HELD`, then `BYTE_INDEX_OUT_OF_BOUNDS`.
#[unsafe(no_mangle)]
pub extern "C" fn ropey_byte_to_char(rope: &Lent, byte_idx: usize, char_idx: &mut usize) -> u32
    ensures answer { AnswersAt rope.now.rope
        (λ r. checked (byte_index_error byte_idx (byte_len r.text)) (byte_to_char r.text byte_idx))
        result char_idx.old char_idx.new }
    ensures kept { HoldsRope rope.now.rope }
{
    answer(held!(rope).try_byte_to_char(byte_idx), char_idx)
}

/// Writes the line of the byte `byte_idx`. A byte inside a break of several bytes is on the line
/// that the break ends.
///
/// # Errors
///
/// `NO_ROPE_HELD`, then `BYTE_INDEX_OUT_OF_BOUNDS`.
#[unsafe(no_mangle)]
pub extern "C" fn ropey_byte_to_line(rope: &Lent, byte_idx: usize, line_idx: &mut usize) -> u32
    ensures answer { AnswersAt rope.now.rope
        (λ r. checked (byte_index_error byte_idx (byte_len r.text))
        (byte_to_line r.breaks r.text byte_idx))
        result line_idx.old line_idx.new }
    ensures kept { HoldsRope rope.now.rope }
{
    answer(held!(rope).try_byte_to_line(byte_idx), line_idx)
}

/// Writes the byte at which the character `char_idx` starts; at the end of the text, the number of
/// bytes.
///
/// # Errors
///
/// `NO_ROPE_HELD`, then `CHAR_INDEX_OUT_OF_BOUNDS`.
#[unsafe(no_mangle)]
pub extern "C" fn ropey_char_to_byte(rope: &Lent, char_idx: usize, byte_idx: &mut usize) -> u32
    ensures answer { AnswersAt rope.now.rope
        (λ r. checked (char_index_error char_idx (length r.text)) (char_to_byte r.text char_idx))
        result byte_idx.old byte_idx.new }
    ensures kept { HoldsRope rope.now.rope }
{
    answer(held!(rope).try_char_to_byte(char_idx), byte_idx)
}

/// Writes the line of the character `char_idx`. The LF of a CR LF is on the line that the two end.
///
/// # Errors
///
/// `NO_ROPE_HELD`, then `CHAR_INDEX_OUT_OF_BOUNDS`.
#[unsafe(no_mangle)]
pub extern "C" fn ropey_char_to_line(rope: &Lent, char_idx: usize, line_idx: &mut usize) -> u32
    ensures answer { AnswersAt rope.now.rope
        (λ r. checked (char_index_error char_idx (length r.text))
        (char_to_line r.breaks r.text char_idx))
        result line_idx.old line_idx.new }
    ensures kept { HoldsRope rope.now.rope }
{
    answer(held!(rope).try_char_to_line(char_idx), line_idx)
}

/// Writes the UTF-16 code unit at which the character `char_idx` starts; at the end of the text,
/// the number of code units.
///
/// # Errors
///
/// `NO_ROPE_HELD`, then `CHAR_INDEX_OUT_OF_BOUNDS`.
#[unsafe(no_mangle)]
pub extern "C" fn ropey_char_to_utf16(rope: &Lent, char_idx: usize, utf16_idx: &mut usize) -> u32
    ensures answer { AnswersAt rope.now.rope
        (λ r. checked (char_index_error char_idx (length r.text)) (char_to_utf16 r.text char_idx))
        result utf16_idx.old utf16_idx.new }
    ensures kept { HoldsRope rope.now.rope }
{
    answer(held!(rope).try_char_to_utf16_cu(char_idx), utf16_idx)
}

/// Writes the character that holds the UTF-16 code unit `utf16_idx`, also if that is the second of
/// a surrogate pair; at the end of the text, the number of characters.
///
/// # Errors
///
/// `NO_ROPE_HELD`, then `UTF16_INDEX_OUT_OF_BOUNDS`.
#[unsafe(no_mangle)]
pub extern "C" fn ropey_utf16_to_char(rope: &Lent, utf16_idx: usize, char_idx: &mut usize) -> u32
    ensures answer { AnswersAt rope.now.rope
        (λ r. checked (utf16_index_error utf16_idx (utf16_len r.text))
        (utf16_to_char r.text utf16_idx))
        result char_idx.old char_idx.new }
    ensures kept { HoldsRope rope.now.rope }
{
    answer(held!(rope).try_utf16_cu_to_char(utf16_idx), char_idx)
}

/// Writes the byte at which the line `line_idx` starts; for the number of lines, the end of the
/// text.
///
/// # Errors
///
/// `NO_ROPE_HELD`, then `LINE_INDEX_OUT_OF_BOUNDS`.
#[unsafe(no_mangle)]
pub extern "C" fn ropey_line_to_byte(rope: &Lent, line_idx: usize, byte_idx: &mut usize) -> u32
    ensures answer { AnswersAt rope.now.rope
        (λ r. checked (line_index_error line_idx (line_count r.breaks r.text))
        (line_to_byte r.breaks r.text line_idx))
        result byte_idx.old byte_idx.new }
    ensures kept { HoldsRope rope.now.rope }
{
    answer(held!(rope).try_line_to_byte(line_idx), byte_idx)
}

/// Writes the character at which the line `line_idx` starts; for the number of lines, the end of
/// the text.
///
/// # Errors
///
/// `NO_ROPE_HELD`, then `LINE_INDEX_OUT_OF_BOUNDS`.
#[unsafe(no_mangle)]
pub extern "C" fn ropey_line_to_char(rope: &Lent, line_idx: usize, char_idx: &mut usize) -> u32
    ensures answer { AnswersAt rope.now.rope
        (λ r. checked (line_index_error line_idx (line_count r.breaks r.text))
        (line_to_char r.breaks r.text line_idx))
        result char_idx.old char_idx.new }
    ensures kept { HoldsRope rope.now.rope }
{
    answer(held!(rope).try_line_to_char(line_idx), char_idx)
}
