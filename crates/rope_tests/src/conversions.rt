//! The counts and conversions of plain texts against the model.
use rope_plain::compare::SETS;
use rope_plain::failure::{Failure, at, expect_same};
use rope_plain::sums::plus;
use rope_plain::{plain_text, same};
use rope_text::{LineBreaks, TextInfo, str_utils};
use std::alloc::Global;

const LETTERS: [char; 9] = [
    'a', '\n', '\r', '\u{B}', '\u{85}', '\u{C5}', '\u{2028}', '\u{5028}', '🐸',
];

/// The numbers of texts of 0 to 5 of the nine characters.
const TEXTS: [usize; 6] = [1, 9, 81, 729, 6_561, 59_049];

/// A text as a string and as its list of characters.
#[derive(Drop)]
struct Sample {
    text: String,
    chars: Vec<char>,
}

impl Sample {
    /// Adds a character to both.
    fn add(&mut self, c: char) -> Result<(), Failure> {
        self.text.push(c)?;
        self.chars.push(c)?;
        Ok(())
    }

    /// Adds `padding` letters `a`.
    fn add_padding(&mut self, padding: usize) -> Result<(), Failure> {
        for round in 0..padding {
            at("round", round, self.add('a'))?;
        }
        Ok(())
    }

    /// Adds the text of `len` characters with this number.
    fn add_text(&mut self, len: usize, number: usize) -> Result<(), Failure> {
        let mut rest = number;
        for round in 0..len {
            at("round", round, self.add(LETTERS[rest % 9]))?;
            rest /= 9;
        }
        Ok(())
    }
}

/// Fails unless the whole text has its characters, code units and surrogate pairs.
fn expect_counts(text: &str, chars: &[char]) -> Result<(), Failure> {
    let found = [
        str_utils::count_chars(text),
        str_utils::count_utf16(text),
        str_utils::count_surrogates(text),
    ];
    let expected = [
        chars.len(),
        plain_text::char_to_utf16(chars, chars.len()),
        plain_text::surrogates_before(chars, chars.len()),
    ];
    expect_same("the counts", &found, &expected)
}

/// Fails unless a byte and a code unit convert to their characters.
fn expect_chars_at(text: &str, chars: &[char], byte: usize, unit: usize) -> Result<(), Failure> {
    let place = plain_text::byte_to_char(chars, byte);
    let pairs = TextInfo::from_str(text, LineBreaks::Lf).utf16_surrogates;
    let found = [
        str_utils::byte_to_char_idx(text, byte),
        str_utils::byte_to_surrogates_of(text, pairs, byte),
        str_utils::utf16_to_char_idx(text, unit),
    ];
    let expected = [
        place,
        plain_text::surrogates_before(chars, place),
        plain_text::utf16_to_char(chars, unit),
    ];
    expect_same("character, pairs, character", &found, &expected)
}

/// Fails unless a character starts at its byte and its code unit, and these and the next ones
/// convert to their characters.
fn expect_place(text: &str, chars: &[char], i: usize) -> Result<(), Failure> {
    let byte = plain_text::char_to_byte(chars, i);
    let unit = plain_text::char_to_utf16(chars, i);
    let found = [
        str_utils::char_to_byte_idx(text, i),
        str_utils::char_to_utf16_idx(text, i),
    ];
    same!(found, [byte, unit]);
    expect_chars_at(text, chars, byte, unit)?;
    expect_chars_at(text, chars, plus(byte, 1), plus(unit, 1))
}

/// Fails unless the conversions that don't depend on the set of line breaks are right, from one
/// character to another.
fn expect_places(text: &str, chars: &[char], (from, to): (usize, usize)) -> Result<(), Failure> {
    for i in from..=to {
        at("i", i, expect_place(text, chars, i))?;
    }
    expect_counts(text, chars)
}

/// Fails unless a character and its byte are on their line.
fn expect_line(text: &str, chars: &[char], i: usize, breaks: LineBreaks) -> Result<(), Failure> {
    let byte = plain_text::char_to_byte(chars, i);
    let line = plain_text::char_to_line(chars, i, breaks);
    let found = [
        str_utils::char_to_line_with(text, i, breaks),
        str_utils::byte_to_line_with(text, byte, breaks),
    ];
    expect_same("the lines", &found, &[line, line])
}

/// Fails unless a line starts at its character and its byte.
fn expect_start(
    text: &str,
    chars: &[char],
    line: usize,
    breaks: LineBreaks,
) -> Result<(), Failure> {
    let start = plain_text::line_to_char(chars, line, breaks);
    let found = [
        str_utils::line_to_char_with(text, line, breaks),
        str_utils::line_to_byte_with(text, line, breaks),
    ];
    let expected = [start, plain_text::char_to_byte(chars, start)];
    expect_same("the starts", &found, &expected)
}

/// Fails unless the characters from one to another are on their lines.
fn expect_lines_between(
    text: &str,
    chars: &[char],
    (from, to): (usize, usize),
    breaks: LineBreaks,
) -> Result<(), Failure> {
    for i in from..=to {
        at("i", i, expect_line(text, chars, i, breaks))?;
    }
    Ok(())
}

/// Fails unless a text has its counts by a set of line breaks.
fn expect_info(text: &str, chars: &[char], breaks: LineBreaks) -> Result<(), Failure> {
    let info = TextInfo {
        bytes: text.len(),
        chars: chars.len(),
        utf16_surrogates: plain_text::surrogates_before(chars, chars.len()),
        break_count: plain_text::char_to_line(chars, chars.len(), breaks),
    };
    let found = TextInfo::from_str(text, breaks);
    expect_same("TextInfo::from_str", &found, &info)
}

/// Fails unless all lines start where they should, and two past the last.
fn expect_starts(text: &str, chars: &[char], breaks: LineBreaks) -> Result<(), Failure> {
    let break_count = plain_text::char_to_line(chars, chars.len(), breaks);
    for line in 0..=plus(break_count, 2) {
        at("line", line, expect_start(text, chars, line, breaks))?;
    }
    let found = str_utils::count_breaks(text, breaks);
    expect_same("count_breaks", &found, &break_count)
}

/// Fails unless lines are right, by each set of line breaks.
fn expect_lines(text: &str, chars: &[char], places: (usize, usize)) -> Result<(), Failure> {
    for breaks in &SETS {
        expect_lines_between(text, chars, places, *breaks)?;
        expect_starts(text, chars, *breaks)?;
        expect_info(text, chars, *breaks)?;
    }
    Ok(())
}

/// The letters `a` before a text and after it.
#[derive(Clone, Copy)]
struct Padding {
    before: usize,
    after: usize,
}

/// Fails unless the text with this number is right between letters.
fn expect_right(alloc: Global, padding: Padding, len: usize, number: usize) -> Result<(), Failure> {
    let mut sample = Sample {
        text: String::new(alloc),
        chars: Vec::new(alloc),
    };
    sample.add_padding(padding.before)?;
    sample.add_text(len, number)?;
    let places = (padding.before.saturating_sub(1), sample.chars.len());
    sample.add_padding(padding.after)?;
    let text = sample.text.as_str();
    expect_places(text, &sample.chars, places)?;
    expect_lines(text, &sample.chars, places)
}

/// Fails unless every text of `len` of the nine characters is right between letters.
fn expect_right_of_length(
    alloc: Global,
    padding: Padding,
    len: usize,
    count: usize,
) -> Result<(), Failure> {
    for number in 0..count {
        at("number", number, expect_right(alloc, padding, len, number))?;
    }
    Ok(())
}

/// Fails unless every text of up to some length of the nine characters is right between letters.
fn expect_all_right(alloc: Global, padding: Padding, counts: &[usize]) -> Result<(), Failure> {
    for (len, count) in counts.iter().enumerate() {
        expect_right_of_length(alloc, padding, len, *count)?;
    }
    Ok(())
}

/// Fails unless this holds after each number of letters from `first` up to `end`.
fn expect_right_after(
    alloc: Global,
    (first, end): (usize, usize),
    after: usize,
    counts: &[usize],
) -> Result<(), Failure> {
    for before in first..end {
        let padding = Padding { before, after };
        at("letters", before, expect_all_right(alloc, padding, counts))?;
    }
    Ok(())
}

#[test]
fn every_text_of_up_to_five_characters_is_counted(rt: HostRuntime) -> Result<(), Failure> {
    expect_right_after(rt.alloc(), (0, 1), 0, &TEXTS)
}

#[test]
fn every_text_across_a_block_is_counted(rt: HostRuntime) -> Result<(), Failure> {
    expect_right_after(rt.alloc(), (28, 31), 0, &TEXTS)
}

#[test]
fn every_text_after_a_block_is_counted(rt: HostRuntime) -> Result<(), Failure> {
    expect_right_after(rt.alloc(), (31, 34), 0, &TEXTS)
}

/// The numbers of texts of 0 to 2 of the nine characters.
const SHORT_TEXTS: [usize; 3] = [1, 9, 81];

#[test]
fn a_short_text_is_counted_at_each_offset_in_a_block(rt: HostRuntime) -> Result<(), Failure> {
    expect_right_after(rt.alloc(), (0, 67), 40, &SHORT_TEXTS)
}
