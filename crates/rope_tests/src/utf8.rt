//! UTF-8 checked at every position of a block: byte strings that Unicode's Table 3-7 classifies.
use rope_plain::failure::{Failure, at, expect_same};
use rope_plain::sums::plus;
use rope_plain::{holds, same};
use rope_text::utf8::{front, text_of, valid_len};
use std::alloc::{AllocError, Global};

/// The first and the last character of each row of Table 3-7, and its number of bytes.
const CHARACTERS: [([u8; 4], usize); 18] = [
    ([0x00, 0, 0, 0], 1),
    ([0x7F, 0, 0, 0], 1),
    ([0xC2, 0x80, 0, 0], 2),
    ([0xDF, 0xBF, 0, 0], 2),
    ([0xE0, 0xA0, 0x80, 0], 3),
    ([0xE0, 0xBF, 0xBF, 0], 3),
    ([0xE1, 0x80, 0x80, 0], 3),
    ([0xEC, 0xBF, 0xBF, 0], 3),
    ([0xED, 0x80, 0x80, 0], 3),
    ([0xED, 0x9F, 0xBF, 0], 3),
    ([0xEE, 0x80, 0x80, 0], 3),
    ([0xEF, 0xBF, 0xBF, 0], 3),
    ([0xF0, 0x90, 0x80, 0x80], 4),
    ([0xF0, 0xBF, 0xBF, 0xBF], 4),
    ([0xF1, 0x80, 0x80, 0x80], 4),
    ([0xF3, 0xBF, 0xBF, 0xBF], 4),
    ([0xF4, 0x80, 0x80, 0x80], 4),
    ([0xF4, 0x8F, 0xBF, 0xBF], 4),
];

/// Bytes in no row of the table, even when ASCII follows: single continuations, overlong forms,
/// surrogates, numbers beyond the last character, bytes that begin nothing, and characters without
/// their last bytes.
const WRONG: [([u8; 4], usize); 36] = [
    ([0x80, 0, 0, 0], 1),
    ([0xBF, 0, 0, 0], 1),
    ([0xC0, 0x80, 0, 0], 2),
    ([0xC1, 0xBF, 0, 0], 2),
    ([0xC2, 0, 0, 0], 1),
    ([0xC2, 0x7F, 0, 0], 2),
    ([0xC2, 0xC0, 0, 0], 2),
    ([0xDF, 0, 0, 0], 1),
    ([0xE0, 0x80, 0x80, 0], 3),
    ([0xE0, 0x9F, 0xBF, 0], 3),
    ([0xE0, 0xA0, 0, 0], 2),
    ([0xE0, 0xA0, 0x7F, 0], 3),
    ([0xE1, 0, 0, 0], 1),
    ([0xE1, 0x7F, 0x80, 0], 3),
    ([0xE1, 0xC0, 0x80, 0], 3),
    ([0xE1, 0x80, 0xC0, 0], 3),
    ([0xEC, 0xBF, 0, 0], 2),
    ([0xED, 0xA0, 0x80, 0], 3),
    ([0xED, 0xBF, 0xBF, 0], 3),
    ([0xEF, 0xBF, 0x7F, 0], 3),
    ([0xF0, 0x80, 0x80, 0x80], 4),
    ([0xF0, 0x8F, 0xBF, 0xBF], 4),
    ([0xF0, 0x90, 0x80, 0], 3),
    ([0xF0, 0x90, 0x80, 0x7F], 4),
    ([0xF0, 0x90, 0xC0, 0x80], 4),
    ([0xF1, 0, 0, 0], 1),
    ([0xF3, 0xBF, 0, 0], 2),
    ([0xF3, 0xBF, 0xBF, 0xC2], 4),
    ([0xF4, 0x90, 0x80, 0x80], 4),
    ([0xF4, 0xBF, 0xBF, 0xBF], 4),
    ([0xF5, 0x80, 0x80, 0x80], 4),
    ([0xF7, 0xBF, 0xBF, 0xBF], 4),
    ([0xF8, 0x88, 0x80, 0x80], 4),
    ([0xFB, 0xBF, 0xBF, 0xBF], 4),
    ([0xFE, 0, 0, 0], 1),
    ([0xFF, 0xBF, 0, 0], 2),
];

/// Characters of one to four bytes.
const FILLINGS: [&str; 4] = ["a", "é", "あ", "😀"];

/// Appends `part` to the bytes until they have at least `least`.
fn fill(bytes: &mut Vec<u8>, part: &[u8], least: usize) -> Result<(), AllocError> {
    for _ in 0..least {
        if bytes.len() >= least {
            break;
        }
        bytes.extend_from_slice(part)?;
    }
    Ok(())
}

/// Fails unless the longest prefix that is a text has `len` bytes.
fn expect_front(bytes: &[u8], len: usize) -> Result<(), Failure> {
    let is_whole = len == bytes.len();
    match text_of(bytes) {
        Some(text) => {
            holds!(is_whole);
            same!(text.as_bytes(), bytes);
        }
        None => {
            holds!(!is_whole);
        }
    }
    same!(valid_len(bytes), len);
    let found = Some(front(bytes).as_bytes());
    expect_same("front(bytes)", &found, &bytes.get(..len))
}

/// Fails unless the bytes of a row, appended to others, are a text or not, as expected, at the end
/// and before letters.
fn expect_added(bytes: &mut Vec<u8>, row: &[u8], is_text: bool) -> Result<(), Failure> {
    let before = bytes.len();
    bytes.extend_from_slice(row)?;
    let end = bytes.len();
    expect_front(bytes, if is_text { end } else { before })?;
    fill(bytes, b"z", plus(end, 40))?;
    let all = bytes.len();
    expect_front(bytes, if is_text { all } else { before })
}

/// Fails unless the bytes of a row are a text or not after a number of bytes of characters.
fn expect_right(
    alloc: Global,
    filling: &str,
    least: usize,
    (given, len): ([u8; 4], usize),
    is_text: bool,
) -> Result<(), Failure> {
    let (row, _) = given.split_at(len.min(4));
    let mut bytes = Vec::new(alloc);
    fill(&mut bytes, filling.as_bytes(), least)?;
    expect_added(&mut bytes, row, is_text)
}

/// Fails unless all rows are right after a number of bytes.
fn expect_all_right(
    alloc: Global,
    least: usize,
    rows: &[([u8; 4], usize)],
    is_text: bool,
) -> Result<(), Failure> {
    for filling in &FILLINGS {
        for row in rows {
            expect_right(alloc, filling, least, *row, is_text)?;
        }
    }
    Ok(())
}

#[test]
fn characters_are_accepted_at_each_offset_in_a_block(rt: HostRuntime) -> Result<(), Failure> {
    for least in 0..72 {
        let outcome = expect_all_right(rt.alloc(), least, &CHARACTERS, true);
        at("least", least, outcome)?;
    }
    Ok(())
}

#[test]
fn wrong_bytes_are_refused_at_each_offset_in_a_block(rt: HostRuntime) -> Result<(), Failure> {
    for least in 0..72 {
        let outcome = expect_all_right(rt.alloc(), least, &WRONG, false);
        at("least", least, outcome)?;
    }
    Ok(())
}
