//! Words of lines, and their values.
ghost use Rattle.std.specs.Prelude.{◌≡◌, IfSome};
ghost use Rattle.rope_protocol.specs.ReplyLine.{breaks_word};

use rope_script::{At, Conv, Move, Part, Unit};
use ropey::LineBreaks;
use std::alloc::{AllocError, Global};

/// Returns the value of a word of decimal digits alone, if it fits a `usize`.
pub(crate) fn number(word: &str) -> Option<usize> {
    if word.starts_with('+') {
        return None;
    }
    word.parse().ok()
}

/// Parses a rope, or a range of its characters.
pub(crate) fn part(word: &str) -> Option<Part> {
    let Some((rope, range)) = word.split_once(':') else {
        return Some((number(word)?, None));
    };
    let (start, end) = range.split_once("..")?;
    Some((number(rope)?, Some((number(start)?, number(end)?))))
}

/// Parses a bound, `None` inside if it is open.
pub(crate) fn bound(word: &str) -> Option<Option<usize>> {
    match word {
        "-" => Some(None),
        _ => Some(Some(number(word)?)),
    }
}

/// Parses `ROPE INDEX`, and returns the text after one more space too.
pub(crate) fn place(words: &str) -> Option<(usize, usize, &str)> {
    let (rope, words) = words.split_once(' ')?;
    let (char_idx, rest) = words.split_once(' ')?;
    Some((number(rope)?, number(char_idx)?, rest))
}

/// Returns the set of line breaks that a word names.
pub(crate) fn line_breaks(word: &str) -> Option<LineBreaks>
    ensures { IfSome result (λ breaks. word.now ≡ breaks_word breaks) }
{
    match word {
        "lf" => Some(LineBreaks::Lf),
        "crlf" => Some(LineBreaks::CrLf),
        "unicode" => Some(LineBreaks::Unicode),
        _ => None,
    }
}

/// Returns the conversion that a word names.
pub(crate) fn conversion(word: &str) -> Option<Conv> {
    match word {
        "b2c" => Some(Conv::ByteToChar),
        "b2l" => Some(Conv::ByteToLine),
        "c2b" => Some(Conv::CharToByte),
        "c2l" => Some(Conv::CharToLine),
        "c2u" => Some(Conv::CharToUtf16),
        "u2c" => Some(Conv::Utf16ToChar),
        "l2b" => Some(Conv::LineToByte),
        "l2c" => Some(Conv::LineToChar),
        _ => None,
    }
}

/// Returns the unit of a cursor that a word names.
pub(crate) fn unit(word: &str) -> Option<Unit> {
    match word {
        "bytes" => Some(Unit::Bytes),
        "chars" => Some(Unit::Chars),
        "lines" => Some(Unit::Lines),
        "chunks-b" => Some(Unit::Chunks(At::Byte)),
        "chunks-c" => Some(Unit::Chunks(At::Char)),
        "chunks-l" => Some(Unit::Chunks(At::LineBreak)),
        _ => None,
    }
}

/// Returns the moves of a word of one or more letters.
pub(crate) fn moves(alloc: Global, word: &str) -> Result<Option<Vec<Move>>, AllocError> {
    let mut moves = Vec::new(alloc);
    for letter in word.chars() {
        match letter {
            'n' => moves.push(Move::Next)?,
            'p' => moves.push(Move::Prev)?,
            'r' => moves.push(Move::Reverse)?,
            _ => return Ok(None),
        }
    }
    if moves.is_empty() {
        return Ok(None);
    }
    Ok(Some(moves))
}

/// Returns the character of a text that has one character.
pub(crate) fn only_char(text: &str) -> Option<char> {
    let mut chars = text.chars();
    let c = chars.next()?;
    match chars.next() {
        None => Some(c),
        Some(_) => None,
    }
}
