//! A plain text: a list of characters, whose counts and conversions scan all of it. It is a model
//! to compare with, written from the rules alone; it is only proved to be safe.
use crate::sums::plus;
use rope_text::LineBreaks;

/// Returns whether the character ends a line break.
fn is_break(c: char, breaks: LineBreaks) -> bool {
    let is_unicode = matches!(c, '\u{B}' | '\u{C}' | '\u{85}' | '\u{2028}' | '\u{2029}');
    match breaks {
        LineBreaks::Lf => c == '\n',
        LineBreaks::CrLf => c == '\n' || c == '\r',
        LineBreaks::Unicode => c == '\n' || c == '\r' || is_unicode,
    }
}

/// Returns whether a break ends after `place` characters.
fn is_break_end(text: &[char], place: usize, breaks: LineBreaks) -> bool {
    let Some(before) = place.checked_sub(1) else {
        return false;
    };
    let Some(last) = text.get(before) else {
        return false;
    };
    let parts_pair = *last == '\r' && text.get(place) == Some(&'\n');
    is_break(*last, breaks) && !parts_pair
}

/// Returns the number of bytes of the first characters.
pub fn char_to_byte(text: &[char], place: usize) -> usize {
    let mut bytes: usize = 0;
    for c in text.iter().take(place) {
        bytes = plus(bytes, c.len_utf8());
    }
    bytes
}

/// Returns the number of the first characters that take two code units.
pub fn surrogates_before(text: &[char], place: usize) -> usize {
    text.iter()
        .take(place)
        .filter(|c| **c >= '\u{10000}')
        .count()
}

/// Returns the number of code units of the first characters.
pub fn char_to_utf16(text: &[char], place: usize) -> usize {
    plus(place.min(text.len()), surrogates_before(text, place))
}

/// Returns the greatest index whose bytes are at most `byte`.
pub fn byte_to_char(text: &[char], byte: usize) -> usize {
    let mut found = 0;
    for place in 0..=text.len() {
        if char_to_byte(text, place) <= byte {
            found = place;
        }
    }
    found
}

/// Returns the greatest index whose code units are at most `unit`.
pub fn utf16_to_char(text: &[char], unit: usize) -> usize {
    let mut found = 0;
    for place in 0..=text.len() {
        if char_to_utf16(text, place) <= unit {
            found = place;
        }
    }
    found
}

/// Returns the number of breaks that end at or before an index.
pub fn char_to_line(text: &[char], place: usize, breaks: LineBreaks) -> usize {
    let mut break_count: usize = 0;
    for end in 1..=place.min(text.len()) {
        if is_break_end(text, end, breaks) {
            break_count = plus(break_count, 1);
        }
    }
    break_count
}

/// Returns the start of a line; past the last line the end.
pub fn line_to_char(text: &[char], line: usize, breaks: LineBreaks) -> usize {
    if line == 0 {
        return 0;
    }
    let mut break_count: usize = 0;
    for end in 1..=text.len() {
        if is_break_end(text, end, breaks) {
            break_count = plus(break_count, 1);
            if break_count == line {
                return end;
            }
        }
    }
    text.len()
}

/// A position before a character or at the end, in every unit, and the start of its line.
#[derive(Clone, Copy)]
pub struct Place {
    pub byte: usize,
    pub unit: usize,
    pub line: usize,
    pub line_start_char: usize,
    pub line_start_byte: usize,
}

/// The position before the first character.
pub const START: Place = Place {
    byte: 0,
    unit: 0,
    line: 0,
    line_start_char: 0,
    line_start_byte: 0,
};

impl Place {
    /// Returns the position after a character, with `passed` characters before it.
    fn after(self, c: char, text: &[char], passed: usize, breaks: LineBreaks) -> Place {
        let mut place = self;
        place.byte = plus(place.byte, c.len_utf8());
        place.unit = plus(place.unit, c.len_utf16());
        if is_break_end(text, passed, breaks) {
            place.line = plus(place.line, 1);
            place.line_start_char = passed;
            place.line_start_byte = place.byte;
        }
        place
    }
}

/// Returns the position after the first characters, by one pass over them.
pub fn place_of(text: &[char], char_idx: usize, breaks: LineBreaks) -> Place {
    let mut place = START;
    let mut passed: usize = 0;
    for c in text.iter().take(char_idx) {
        passed = plus(passed, 1);
        place = place.after(*c, text, passed, breaks);
    }
    place
}
