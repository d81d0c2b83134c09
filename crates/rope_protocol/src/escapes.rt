//! Texts with escapes, as lines have them.
use std::alloc::{AllocError, Global};

/// The state of an escape.
#[derive(Clone, Copy)]
enum Escape {
    /// No escape has begun.
    Outside,
    /// A backslash was read.
    Backslash,
    /// A backslash and `u` were read.
    Unicode,
    /// A backslash, `u{`, and a number of hexadecimal digits with this value were read.
    Digits(u32, u8),
}

/// The result of a character of a line.
enum Made {
    /// A character of the text. No escape is open after it.
    Character(char),
    /// An escape that continues.
    Part(Escape),
}

/// The maximum number of hexadecimal digits of an escape.
const MAX_DIGITS: u8 = 6;

/// Returns the text that a TEXT stands for, or `None` if a backslash is misused: `\n`, `\r`, `\\`
/// and `\u{H}`, with 1 to 6 hexadecimal digits of a Unicode scalar value, are LF, CR, a backslash
/// and that character.
pub(crate) fn unescape(alloc: Global, written: &str) -> Result<Option<String>, AllocError> {
    let mut text = String::new(alloc);
    let mut escape = Escape::Outside;
    for c in written.chars() {
        match read(escape, c) {
            Some(Made::Character(character)) => {
                text.push(character)?;
                escape = Escape::Outside;
            }
            Some(Made::Part(further)) => escape = further,
            None => return Ok(None),
        }
    }
    match escape {
        Escape::Outside => Ok(Some(text)),
        _ => Ok(None),
    }
}

/// Returns the result of the next character, or `None` if it is not allowed there.
fn read(escape: Escape, c: char) -> Option<Made> {
    match (escape, c) {
        (Escape::Outside, '\\') => Some(Made::Part(Escape::Backslash)),
        (Escape::Outside, _) => Some(Made::Character(c)),
        (Escape::Backslash, 'n') => Some(Made::Character('\n')),
        (Escape::Backslash, 'r') => Some(Made::Character('\r')),
        (Escape::Backslash, '\\') => Some(Made::Character('\\')),
        (Escape::Backslash, 'u') => Some(Made::Part(Escape::Unicode)),
        (Escape::Unicode, '{') => Some(Made::Part(Escape::Digits(0, 0))),
        (Escape::Digits(value, count), _) => read_digit(value, count, c),
        _ => None,
    }
}

/// Returns the result of a character after `count` hexadecimal digits with this value.
fn read_digit(value: u32, count: u8, c: char) -> Option<Made> {
    if c == '}' {
        if count == 0 {
            return None;
        }
        return Some(Made::Character(char::from_u32(value)?));
    }
    if count >= MAX_DIGITS {
        return None;
    }
    let digit = c.to_digit(16)?;
    let further = value.saturating_mul(16).saturating_add(digit);
    Some(Made::Part(Escape::Digits(further, count + 1)))
}
