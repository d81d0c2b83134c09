//! The texts of the workloads, equal in every run.
use crate::fault::Fault;
use crate::numbers::Numbers;
use std::alloc::Global;
use std::mem;

/// The number of columns after which a line of prose or of the mixed text ends.
const COLUMNS: usize = 40;

/// The characters after a word of source code.
const MARKS: [char; 8] = [' ', ' ', ' ', '.', ',', ';', '(', ')'];

/// A kind of text.
#[derive(Clone, Copy)]
pub enum Text {
    /// Words of small letters, and lines that end in LF.
    Prose,
    /// Characters of one to four bytes, and several kinds of line breaks.
    Mixed,
    /// Indented lines of words and marks, empty lines between them, all of which end in CR LF.
    Code,
}

/// All texts, in order.
pub const TEXTS: [Text; 3] = [Text::Prose, Text::Mixed, Text::Code];

impl Text {
    /// Returns the end of the names of the workloads on it.
    pub fn ending(self) -> &'static str {
        match self {
            Text::Prose => "/P",
            Text::Mixed => "/M",
            Text::Code => "/C",
        }
    }

    /// Returns the text, of at least `least` bytes.
    pub fn make(self, alloc: Global, least: usize) -> Result<String, Fault> {
        match self {
            Text::Prose => prose(alloc, least),
            Text::Mixed => mixed(alloc, least),
            Text::Code => code(alloc, least),
        }
    }
}

/// Returns prose of at least `least` bytes.
fn prose(alloc: Global, least: usize) -> Result<String, Fault> {
    let mut numbers = Numbers::new();
    let mut text = String::new(alloc);
    let mut column: usize = 0;
    for _ in 0..least {
        if text.len() >= least {
            break;
        }
        let letters = numbers.up_to(8).wrapping_add(1);
        push_word(&mut text, &mut numbers, letters)?;
        column = column.wrapping_add(letters);
        if column >= COLUMNS {
            text.push('\n')?;
            column = 0;
        } else {
            text.push(' ')?;
            column = column.wrapping_add(1);
        }
    }
    Ok(text)
}

/// Appends a word of `letters` letters.
fn push_word(text: &mut String, numbers: &mut Numbers, letters: usize) -> Result<(), Fault> {
    for _ in 0..letters {
        text.push(letter(numbers, 'a', 26))?;
    }
    Ok(())
}

/// Draws one of `count` characters from `first` on.
fn letter(numbers: &mut Numbers, first: char, count: u32) -> char {
    let number = numbers.up_to((count.saturating_sub(1)) as usize);
    let code = u32::from(first).wrapping_add((number & 0xFF) as u32);
    char::from_u32(code).unwrap_or(first)
}

/// Returns a text of `bytes` bytes, in lines of `width` small letters that end in LF.
pub fn letters(alloc: Global, width: usize, bytes: usize) -> Result<String, Fault> {
    let mut numbers = Numbers::new();
    let mut text = String::new(alloc);
    let mut column: usize = 0;
    for _ in 0..bytes {
        if column == width {
            text.push('\n')?;
            column = 0;
        } else {
            text.push(letter(&mut numbers, 'a', 26))?;
            column = column.wrapping_add(1);
        }
    }
    Ok(text)
}

/// Returns a mixed text of at least `least` bytes.
fn mixed(alloc: Global, least: usize) -> Result<String, Fault> {
    let mut numbers = Numbers::new();
    let mut text = String::new(alloc);
    let mut column: usize = 0;
    for _ in 0..least {
        if text.len() >= least {
            break;
        }
        text.push(mixed_letter(&mut numbers))?;
        column = column.wrapping_add(1);
        if column == COLUMNS {
            text.push_str(line_end(&mut numbers))?;
            column = 0;
        }
    }
    Ok(text)
}

/// Draws a letter of one of five ranges.
fn mixed_letter(numbers: &mut Numbers) -> char {
    match numbers.up_to(7) {
        4 => letter(numbers, '\u{E0}', 24),
        5 => letter(numbers, '\u{430}', 32),
        6 => letter(numbers, '\u{3042}', 80),
        7 => letter(numbers, '\u{1F600}', 64),
        _ => letter(numbers, 'a', 26),
    }
}

/// Draws the end of a line of the mixed text.
fn line_end(numbers: &mut Numbers) -> &'static str {
    match numbers.up_to(7) {
        0 => "\u{2028}",
        1 => "\r\n",
        2 => "\u{85}",
        _ => "\n",
    }
}

/// Returns source code of at least `least` bytes.
fn code(alloc: Global, least: usize) -> Result<String, Fault> {
    let mut numbers = Numbers::new();
    let mut text = String::new(alloc);
    for _ in 0..least {
        if text.len() >= least {
            break;
        }
        if numbers.up_to(7) > 0 {
            push_statement(&mut text, &mut numbers)?;
        }
        text.push_str("\r\n")?;
    }
    Ok(text)
}

/// Appends tabs, and words with a mark after each.
fn push_statement(text: &mut String, numbers: &mut Numbers) -> Result<(), Fault> {
    for _ in 0..numbers.up_to(4) {
        text.push('\t')?;
    }
    for _ in 0..numbers.up_to(10).wrapping_add(1) {
        let letters = numbers.up_to(8).wrapping_add(1);
        push_word(text, numbers, letters)?;
        text.push(MARKS[numbers.up_to(7)])?;
    }
    Ok(())
}

/// Returns the text, `count` times.
pub fn repeated(alloc: Global, text: &str, count: usize) -> Result<String, Fault> {
    let mut all = String::new(alloc);
    all.reserve(text.len().saturating_mul(count))?;
    for _ in 0..count {
        all.push_str(text)?;
    }
    Ok(all)
}

/// Returns pieces of whole lines of at least `least` bytes each, without the rest.
pub fn pieces_of(alloc: Global, text: &str, least: usize) -> Result<Vec<String>, Fault> {
    let mut pieces = Vec::new(alloc);
    let mut piece = String::new(alloc);
    for line in text.split_inclusive('\n') {
        piece.push_str(line)?;
        if piece.len() >= least {
            pieces.push(mem::replace(&mut piece, String::new(alloc)))?;
        }
    }
    Ok(pieces)
}

/// Returns the first lines that together have `least` bytes.
pub fn first_lines(alloc: Global, text: &str, least: usize) -> Result<String, Fault> {
    let mut piece = String::new(alloc);
    for line in text.split_inclusive('\n') {
        if piece.len() >= least {
            break;
        }
        piece.push_str(line)?;
    }
    Ok(piece)
}

/// Returns the first lines of a text, each with its LF, which the last may lack.
pub fn lines_of(alloc: Global, text: &str, most: usize) -> Result<Vec<&str>, Fault> {
    Ok(text.split_inclusive('\n').take(most).collect(alloc)?)
}
