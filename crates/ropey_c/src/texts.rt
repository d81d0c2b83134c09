//! Counts of plain texts, and conversions between their indices. An index past the end counts as
//! the end. Each call but [`ropey_text_counts_unchecked`] reads the text once to check that it is
//! UTF-8. None takes memory. A call that fails writes nothing.
ghost use Rattle.std.specs.Prelude.{◌≡◌, length};
ghost use Rattle.std.specs.Str.{IsUtf8, chars};
ghost use Rattle.std.specs.Str.Lossy.{utf8_valid_len};
ghost use Rattle.rope_text.specs.Conversions.{byte_to_char, byte_to_line, char_to_byte, char_to_line, char_to_utf16, line_to_byte, line_to_char, utf16_to_char};
ghost use Rattle.ropey_c.specs.Counts.{IsCounts, CountsText, AnswersText, AnswersTextWith};
ghost use Rattle.ropey_c.specs.Status.{given_breaks};

use crate::counts::{Counts, counts_of};
use crate::macros::{breaks_for, utf8_text};
use crate::status::{OK, given_breaks};
use rope_text::{LineBreaks, str_utils, utf8};
use ropey::RopeSlice;
use std::str;

/// Returns how many bytes at the front of the text are whole characters of UTF-8.
#[unsafe(no_mangle)]
pub extern "C" fn ropey_text_valid_len(text: &[u8]) -> usize
    ensures { result ≡ utf8_valid_len text.now }
{
    utf8::valid_len(text)
}

// Counts in one pass over the text.
fn counts_in(text: &str, breaks: LineBreaks) -> Counts
    ensures { IsCounts breaks (chars text.now) result }
{
    counts_of(&RopeSlice::from_str_with(text, breaks))
}

/// Writes the counts of the text, with a set of line breaks.
///
/// # Errors
///
/// `UNKNOWN_BREAK_SET`, then `INVALID_UTF8`.
#[unsafe(no_mangle)]
pub extern "C" fn ropey_text_counts(text: &[u8], break_set: u32, counts: &mut Counts) -> u32
    ensures { CountsText (given_breaks break_set) text.now result counts.old counts.new }
{
    let breaks = breaks_for!(break_set);
    *counts = counts_in(utf8_text!(text), breaks);
    OK
}

/// Writes the counts of a text without checking that it is UTF-8. The text must be UTF-8: of other
/// bytes the call may read past the end.
///
/// # Errors
///
/// `UNKNOWN_BREAK_SET`.
#[unsafe(no_mangle)]
pub extern "C" fn ropey_text_counts_unchecked(
    text: &[u8],
    break_set: u32,
    counts: &mut Counts,
) -> u32
    requires { IsUtf8 text.now }
    ensures { CountsText (given_breaks break_set) text.now result counts.old counts.new }
{
    let breaks = breaks_for!(break_set);
    *counts = counts_in(unsafe { str::from_utf8_unchecked(text) }, breaks);
    OK
}

/// Writes the character that holds the byte `byte_idx`.
///
/// # Errors
///
/// `INVALID_UTF8`.
#[unsafe(no_mangle)]
pub extern "C" fn ropey_text_byte_to_char(text: &[u8], byte_idx: usize, char_idx: &mut usize) -> u32
    ensures { AnswersText text.now (λ t. byte_to_char t byte_idx) result char_idx.old char_idx.new }
{
    *char_idx = str_utils::byte_to_char_idx(utf8_text!(text), byte_idx);
    OK
}

/// Writes the line of the byte `byte_idx`.
///
/// # Errors
///
/// `UNKNOWN_BREAK_SET`, then `INVALID_UTF8`.
#[unsafe(no_mangle)]
pub extern "C" fn ropey_text_byte_to_line(
    text: &[u8],
    break_set: u32,
    byte_idx: usize,
    line_idx: &mut usize,
) -> u32
    ensures { AnswersTextWith (given_breaks break_set) text.now
        (λ breaks t. byte_to_line breaks t byte_idx) result line_idx.old line_idx.new }
{
    let breaks = breaks_for!(break_set);
    *line_idx = str_utils::byte_to_line_with(utf8_text!(text), byte_idx, breaks);
    OK
}

/// Writes the byte at which the character `char_idx` starts.
///
/// # Errors
///
/// `INVALID_UTF8`.
#[unsafe(no_mangle)]
pub extern "C" fn ropey_text_char_to_byte(text: &[u8], char_idx: usize, byte_idx: &mut usize) -> u32
    ensures { AnswersText text.now (λ t. char_to_byte t char_idx) result byte_idx.old byte_idx.new }
{
    *byte_idx = str_utils::char_to_byte_idx(utf8_text!(text), char_idx);
    OK
}

/// Writes the line of the character `char_idx`.
///
/// # Errors
///
/// `UNKNOWN_BREAK_SET`, then `INVALID_UTF8`.
#[unsafe(no_mangle)]
pub extern "C" fn ropey_text_char_to_line(
    text: &[u8],
    break_set: u32,
    char_idx: usize,
    line_idx: &mut usize,
) -> u32
    ensures { AnswersTextWith (given_breaks break_set) text.now
        (λ breaks t. char_to_line breaks t char_idx) result line_idx.old line_idx.new }
{
    let breaks = breaks_for!(break_set);
    *line_idx = str_utils::char_to_line_with(utf8_text!(text), char_idx, breaks);
    OK
}

/// Writes the UTF-16 code unit at which the character `char_idx` starts.
///
/// # Errors
///
/// `INVALID_UTF8`.
#[unsafe(no_mangle)]
pub extern "C" fn ropey_text_char_to_utf16(
    text: &[u8],
    char_idx: usize,
    utf16_idx: &mut usize,
) -> u32
    ensures { AnswersText text.now (λ t. char_to_utf16 t char_idx)
        result utf16_idx.old utf16_idx.new }
{
    *utf16_idx = str_utils::char_to_utf16_idx(utf8_text!(text), char_idx);
    OK
}

/// Writes the character that holds the UTF-16 code unit `utf16_idx`.
///
/// # Errors
///
/// `INVALID_UTF8`.
#[unsafe(no_mangle)]
pub extern "C" fn ropey_text_utf16_to_char(
    text: &[u8],
    utf16_idx: usize,
    char_idx: &mut usize,
) -> u32
    ensures { AnswersText text.now (λ t. utf16_to_char t utf16_idx)
        result char_idx.old char_idx.new }
{
    *char_idx = str_utils::utf16_to_char_idx(utf8_text!(text), utf16_idx);
    OK
}

/// Writes the byte at which the line `line_idx` starts.
///
/// # Errors
///
/// `UNKNOWN_BREAK_SET`, then `INVALID_UTF8`.
#[unsafe(no_mangle)]
pub extern "C" fn ropey_text_line_to_byte(
    text: &[u8],
    break_set: u32,
    line_idx: usize,
    byte_idx: &mut usize,
) -> u32
    ensures { AnswersTextWith (given_breaks break_set) text.now
        (λ breaks t. line_to_byte breaks t line_idx) result byte_idx.old byte_idx.new }
{
    let breaks = breaks_for!(break_set);
    *byte_idx = str_utils::line_to_byte_with(utf8_text!(text), line_idx, breaks);
    OK
}

/// Writes the character at which the line `line_idx` starts.
///
/// # Errors
///
/// `UNKNOWN_BREAK_SET`, then `INVALID_UTF8`.
#[unsafe(no_mangle)]
pub extern "C" fn ropey_text_line_to_char(
    text: &[u8],
    break_set: u32,
    line_idx: usize,
    char_idx: &mut usize,
) -> u32
    ensures { AnswersTextWith (given_breaks break_set) text.now
        (λ breaks t. line_to_char breaks t line_idx) result char_idx.old char_idx.new }
{
    let breaks = breaks_for!(break_set);
    *char_idx = str_utils::line_to_char_with(utf8_text!(text), line_idx, breaks);
    OK
}
