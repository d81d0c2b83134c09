//! Texts, and edits of lists of characters.
use crate::failure::Failure;
use crate::numbers::Numbers;
use crate::same;
use crate::sums::plus;
use ropey::{Error, Rope};
use std::alloc::{AllocError, Global};

/// Returns a text, `count` times.
pub fn repeated(alloc: Global, text: &str, count: usize) -> Result<String, AllocError> {
    let mut all = String::new(alloc);
    for _ in 0..count {
        all.push_str(text)?;
    }
    Ok(all)
}

/// Returns a rope of a text, `count` times.
pub fn rope_of(alloc: Global, text: &str, count: usize) -> Result<Rope, Error> {
    let text = repeated(alloc, text, count)?;
    Rope::from_str(alloc, text.as_str())
}

/// Joins a rope to itself `times` times.
fn double(rope: &mut Rope, times: usize) -> Result<(), Error> {
    for _ in 0..times {
        let copy = rope.clone()?;
        rope.append(copy)?;
    }
    Ok(())
}

/// Returns a text that is joined to itself `times` times.
pub fn doubled(alloc: Global, text: &str, times: usize) -> Result<Rope, Error> {
    let mut rope = Rope::from_str(alloc, text)?;
    double(&mut rope, times)?;
    Ok(rope)
}

/// Returns whether a text is these characters.
pub fn is_text(text: &str, chars: &[char]) -> bool {
    let mut place: usize = 0;
    for c in text.chars() {
        if chars.get(place) != Some(&c) {
            return false;
        }
        place = plus(place, 1);
    }
    place == chars.len()
}

/// Fails unless a text is these characters.
pub fn expect_chars(text: &str, chars: &[char]) -> Result<(), Failure> {
    if is_text(text, chars) {
        return Ok(());
    }
    Err(Failure::new(format_args!("{text:?}, not {chars:?}")))
}

/// Fails unless this text was shown.
pub fn expect_shown(shown: Result<String, AllocError>, text: &str) -> Result<(), Failure> {
    let shown = shown?;
    same!(shown.as_str(), text);
    Ok(())
}

/// Returns a text as a list of characters.
pub fn chars_of(alloc: Global, text: &str) -> Result<Vec<char>, AllocError> {
    let mut chars = Vec::new(alloc);
    for c in text.chars() {
        chars.push(c)?;
    }
    Ok(chars)
}

/// Characters of one to four bytes and breaks of every kind, in 48 bytes.
pub const BREAKS: &str =
    "\u{A}Hello\u{D}\u{A}\u{D}せ\u{B}か\u{C}い\u{85}. There\u{2028}is something.\u{2029}";

const PARTS: [&str; 8] = ["a", "\r", "\n", "\r\n", "é", "こ", "🐸", "\u{2028}"];

/// Returns a text of at most `most` bytes and three more, rich in breaks.
pub fn random_text(
    alloc: Global,
    numbers: &mut Numbers,
    most: usize,
) -> Result<String, AllocError> {
    let mut text = String::new(alloc);
    let len = numbers.up_to(most);
    for _ in 0..len {
        if text.as_str().len() >= len {
            break;
        }
        text.push_str(PARTS[numbers.take() % 8])?;
    }
    Ok(text)
}

/// Returns a text to insert: of at most 12 bytes and three more, one in four of at most 1,196, and
/// one in 32 of at most 4,200.
pub fn random_edit_text(alloc: Global, numbers: &mut Numbers) -> Result<String, AllocError> {
    let most = match numbers.take() % 32 {
        0 => 4_200,
        1..=8 => 1_196,
        _ => 12,
    };
    random_text(alloc, numbers, most)
}

/// Returns the list with a text before the character `at`.
pub fn inserted(
    alloc: Global,
    old: &[char],
    at: usize,
    text: &str,
) -> Result<Vec<char>, AllocError> {
    let mut new = Vec::new(alloc);
    new.reserve(plus(old.len(), text.len()))?;
    let (front, back) = old.split_at(at.min(old.len()));
    new.extend_from_slice(front)?;
    for c in text.chars() {
        new.push(c)?;
    }
    new.extend_from_slice(back)?;
    Ok(new)
}

/// Removes the characters from `start` up to `end` from a list.
pub fn take_out(
    alloc: Global,
    text: &mut Vec<char>,
    start: usize,
    end: usize,
) -> Result<(), AllocError> {
    let back = part_from(alloc, text, end)?;
    text.truncate(start);
    text.extend_from_slice(&back)
}

/// Returns the characters from `start` on.
pub fn part_from(alloc: Global, text: &[char], start: usize) -> Result<Vec<char>, AllocError> {
    let (_, back) = text.split_at(start.min(text.len()));
    Vec::from_slice(alloc, back)
}

/// Returns a text of `bytes` bytes that begins with `first` and ends with `last`, or these alone if
/// they are longer.
pub fn padded(alloc: Global, first: &str, bytes: usize, last: &str) -> Result<String, AllocError> {
    let ends = plus(first.len(), last.len());
    let mut text = String::from_str(alloc, first)?;
    text.push_str(repeated(alloc, "a", bytes.saturating_sub(ends))?.as_str())?;
    text.push_str(last)?;
    Ok(text)
}
