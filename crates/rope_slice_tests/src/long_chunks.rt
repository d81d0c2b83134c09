//! Chunks of texts of 2^62 bytes, at both ends and in the middle. crates/rope/stdin has their other
//! lookups.
use rope_plain::failure::{Failure, at, expect_same, within};
use rope_plain::sums::{minus, plus};
use rope_plain::texts::doubled;
use rope_plain::{holds, same, some};
use ropey::Rope;

/// The number of bytes of each text.
const WHOLE: usize = 1 << 62;

/// A text of a few bytes that is doubled.
#[derive(Clone, Copy)]
struct Row {
    text: &'static str,
    times: usize,
    /// Its characters, which all have the same number of bytes.
    chars: usize,
    bytes_a_char: usize,
    /// Its line breaks, the last at its end.
    break_count: usize,
}

/// Letters, pairs, characters of four bytes, and lines.
const ROWS: [Row; 4] = [
    Row {
        text: "a",
        times: 62,
        chars: 1,
        bytes_a_char: 1,
        break_count: 0,
    },
    Row {
        text: "\r\n",
        times: 61,
        chars: 2,
        bytes_a_char: 1,
        break_count: 1,
    },
    Row {
        text: "🐸",
        times: 60,
        chars: 1,
        bytes_a_char: 4,
        break_count: 0,
    },
    Row {
        text: "aaa\n",
        times: 60,
        chars: 4,
        bytes_a_char: 1,
        break_count: 1,
    },
];

/// Fails unless the chunk at a character is the one at its byte, contains it or ends there at the
/// text's end, and begins where the counts say.
fn expect_chunk(rope: &Rope, row: &Row, char_idx: usize) -> Result<(), Failure> {
    let byte_idx = char_idx.saturating_mul(row.bytes_a_char);
    let (chunk, start, chars, break_count) = some!(rope.get_chunk_at_byte(byte_idx));
    let by_char = rope.get_chunk_at_char(char_idx);
    let end = plus(start, chunk.len());
    let rounds = chars.checked_div(row.chars).unwrap_or(0);
    let counts = [
        chars.saturating_mul(row.bytes_a_char),
        rounds.saturating_mul(row.break_count),
    ];
    let is_inside = byte_idx < end || (end == WHOLE && byte_idx == end);
    same!(by_char, Some((chunk, start, chars, break_count)));
    same!([start, break_count], counts);
    holds!(start <= byte_idx && is_inside);
    Ok(())
}

/// Fails unless the chunk at a line break has it, and begins before it.
fn expect_chunk_at_break(rope: &Rope, line_break: usize) -> Result<(), Failure> {
    let (chunk, start, _, before) = some!(rope.get_chunk_at_line_break(line_break));
    let end = rope.try_byte_to_line(plus(start, chunk.len()))?;
    holds!(line_break <= end && (before < line_break || start == 0));
    Ok(())
}

/// Fails unless ranges up to the end are cut, and those past it aren't.
fn expect_cut_at_its_end(rope: &Rope) -> Result<(), Failure> {
    let end = rope.len_chars();
    let are_cut = [
        rope.get_slice(..end).is_some(),
        rope.get_byte_slice(..WHOLE).is_some(),
        rope.get_slice(..=end).is_some(),
        rope.get_byte_slice(..=WHOLE).is_some(),
        rope.get_byte_slice(..=usize::MAX).is_some(),
    ];
    let expected = [true, true, false, false, false];
    expect_same("the ranges that are cut", &are_cut, &expected)
}

/// Fails unless ranges up to the end are cut, and the chunks at both ends and in the middle are
/// right.
fn expect_chunks(rope: &Rope, row: &Row) -> Result<(), Failure> {
    expect_cut_at_its_end(rope)?;
    let end = rope.len_chars();
    let middle = end / 2;
    let places = [
        0,
        1,
        minus(middle, 1),
        middle,
        plus(middle, 1),
        minus(end, 2),
        minus(end, 1),
        end,
    ];
    for char_idx in &places {
        at("character", *char_idx, expect_chunk(rope, row, *char_idx))?;
    }
    let last = minus(rope.len_lines(), 1);
    for line_break in &[0, 1.min(last), last / 2, last] {
        expect_chunk_at_break(rope, *line_break)?;
    }
    Ok(())
}

#[test]
fn chunks_of_2_to_the_62_bytes_are_found(rt: HostRuntime) -> Result<(), Failure> {
    for row in &ROWS {
        let rope = doubled(rt.alloc(), row.text, row.times)?;
        within(row.text, expect_chunks(&rope, row))?;
    }
    Ok(())
}
