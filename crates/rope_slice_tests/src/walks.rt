//! Random walks of cursors over random ropes, slices and plain texts, against plain lists of their
//! items.
use crate::plain_cursor::PlainCursor;
use crate::plain_slice::PlainSlice;
use crate::random_slices::{edited, random_range, slice_of};
use crate::rows::at_turn;
use crate::slice_model::expect_whole;
use crate::walker::{Item, Walker};
use rope_plain::compare::SETS;
use rope_plain::failure::{Failure, at, within};
use rope_plain::numbers::Numbers;
use rope_plain::pair::Pair;
use rope_plain::plain_text::{char_to_byte, char_to_line, line_to_char};
use rope_plain::sums::plus;
use rope_plain::texts::{chars_of, expect_chars, random_text};
use rope_plain::{same, some};
use ropey::{LineBreaks, RopeSlice};
use std::alloc::{AllocError, Global};

/// The number of steps of a walk.
const STEPS: usize = 60;

/// A slice's model, its bytes, and the ends of its chunks.
#[derive(Drop)]
struct Items<'p> {
    plain: PlainSlice<'p>,
    bytes: String,
    ends: Vec<usize>,
}

/// Returns the text of these characters.
fn text_of(alloc: Global, chars: &[char]) -> Result<String, AllocError> {
    let mut text = String::new(alloc);
    for c in chars {
        text.push(*c)?;
    }
    Ok(text)
}

/// Returns the ends of the chunks of a slice, in its characters.
fn ends_of(alloc: Global, plain: &PlainSlice<'_>) -> Result<Vec<usize>, AllocError> {
    let mut ends = Vec::new(alloc);
    let mut last = 0;
    for end in plain.ends {
        let end = end.saturating_sub(plain.before).min(plain.text.len());
        if end > last {
            ends.push(end)?;
            last = end;
        }
    }
    Ok(ends)
}

impl<'p> Items<'p> {
    fn new(alloc: Global, plain: PlainSlice<'p>) -> Result<Items<'p>, AllocError> {
        Ok(Items {
            plain,
            bytes: text_of(alloc, plain.text)?,
            ends: ends_of(alloc, &plain)?,
        })
    }

    fn line_count(&self) -> usize {
        char_to_line(self.plain.text, self.plain.text.len(), self.plain.breaks).saturating_add(1)
    }

    /// Returns the index of the chunk that contains a character, and its start; at the end of the
    /// text the end.
    fn chunk_start(&self, char_idx: usize) -> (usize, usize) {
        let mut index: usize = 0;
        let mut start: usize = 0;
        for end in &self.ends {
            if *end <= char_idx {
                index = plus(index, 1);
                start = *end;
            }
        }
        (index, start)
    }

    /// Fails unless this is the chunk with that index.
    fn expect_chunk(&self, chunk: &str, index: usize) -> Result<(), Failure> {
        let start = match index.checked_sub(1) {
            Some(before) => self.ends.get(before),
            None => Some(&0),
        };
        match (start, self.ends.get(index)) {
            (Some(start), Some(end)) => { expect_chars(chunk, self.plain.part(*start, *end).text) }
            _ => Err(Failure::new(format_args!("chunk {chunk:?}, not none"))),
        }
    }

    /// Fails unless this is the line with that index.
    fn expect_line(&self, line: &RopeSlice<'_>, index: usize) -> Result<(), Failure> {
        let next = plus(index, 1);
        let start = line_to_char(self.plain.text, index, self.plain.breaks);
        let end = line_to_char(self.plain.text, next, self.plain.breaks);
        expect_whole(line, &self.plain.part(start, end))
    }

    /// Fails unless this is the item with that index.
    fn expect_item(&self, item: Item<'_>, index: usize) -> Result<(), Failure> {
        match item {
            Item::Byte(byte) => {
                same!(self.bytes.as_str().as_bytes().get(index), Some(&byte));
                Ok(())
            }
            Item::Char(c) => {
                same!(self.plain.text.get(index), Some(&c));
                Ok(())
            }
            Item::Chunk(chunk) => self.expect_chunk(chunk, index),
            Item::Line(line) => self.expect_line(&line, index),
        }
    }

    /// Fails unless a step of the cursor and one of the model returned the same.
    fn expect_step(&self, item: Option<Item<'_>>, index: Option<usize>) -> Result<(), Failure> {
        match (item, index) {
            (Some(item), Some(index)) => self.expect_item(item, index),
            (None, None) => Ok(()),
            (Some(_), None) => Err(Failure::new("an item, not none")),
            (None, Some(index)) => Err(Failure::new(format_args!("none, not item {index}"))),
        }
    }
}

/// Fails unless a random step of a cursor and of its model return the same, with the same number of
/// items left.
fn expect_random_step<'a, W: Walker<'a>>(
    numbers: &mut Numbers,
    walker: &mut W,
    plain: &mut PlainCursor,
    items: &Items<'_>,
) -> Result<(), Failure> {
    match numbers.up_to(8) {
        0 => {
            walker.turn();
            plain.reverse();
        }
        1 | 2 | 3 => {
            within("prev", items.expect_step(walker.back(), plain.prev()))?;
        }
        _ => {
            within("next", items.expect_step(walker.ahead(), plain.next()))?;
        }
    }
    if let Some(count) = walker.left_over() {
        same!(count, plain.left_over());
    }
    Ok(())
}

/// Fails unless a walk from the cursor's position agrees with that of its model.
fn expect_walk<'a, W: Walker<'a>>(
    numbers: &mut Numbers,
    walker: &mut W,
    partner: PlainCursor,
    items: &Items<'_>,
) -> Result<(), Failure> {
    let mut plain = partner;
    for step in 0..STEPS {
        let outcome = expect_random_step(numbers, walker, &mut plain, items);
        at("step", step, outcome)?;
    }
    Ok(())
}

fn expect_walk_over_bytes(
    numbers: &mut Numbers,
    slice: &RopeSlice<'_>,
    items: &Items<'_>,
    char_idx: usize,
) -> Result<(), Failure> {
    let byte_idx = char_to_byte(items.plain.text, char_idx);
    let partner = PlainCursor::at(items.bytes.len(), byte_idx);
    let mut cursor = some!(slice.get_bytes_at(byte_idx));
    expect_walk(numbers, &mut cursor, partner, items)
}

fn expect_walk_over_chars(
    numbers: &mut Numbers,
    slice: &RopeSlice<'_>,
    items: &Items<'_>,
    char_idx: usize,
) -> Result<(), Failure> {
    let partner = PlainCursor::at(items.plain.text.len(), char_idx);
    let mut cursor = some!(slice.get_chars_at(char_idx));
    expect_walk(numbers, &mut cursor, partner, items)
}

fn expect_walk_over_lines(
    numbers: &mut Numbers,
    slice: &RopeSlice<'_>,
    items: &Items<'_>,
    line_idx: usize,
) -> Result<(), Failure> {
    let partner = PlainCursor::at(items.line_count(), line_idx);
    let mut cursor = some!(slice.get_lines_at(line_idx));
    expect_walk(numbers, &mut cursor, partner, items)
}

/// Tests a walk over chunks from the one that contains a character, or from the end.
fn expect_walk_over_chunks(
    numbers: &mut Numbers,
    slice: &RopeSlice<'_>,
    items: &Items<'_>,
    char_idx: usize,
) -> Result<(), Failure> {
    let (index, start) = items.chunk_start(char_idx);
    let partner = PlainCursor::at(items.ends.len(), index);
    let (mut cursor, bytes, before, break_count) = some!(slice.get_chunks_at_char(char_idx));
    same!(
        (bytes, before, break_count),
        items.plain.counts_before(start)
    );
    expect_walk(numbers, &mut cursor, partner, items)
}

/// Fails unless a walk of each kind over a slice succeeds, each from a random position or from an
/// end.
fn expect_walks(
    numbers: &mut Numbers,
    slice: &RopeSlice<'_>,
    items: &Items<'_>,
) -> Result<(), Failure> {
    let end = items.plain.text.len();
    let char_idx = numbers.up_to(end);
    let line_idx = numbers.up_to(items.line_count());
    let from_start = PlainCursor::at(items.ends.len(), 0);
    let bytes = expect_walk_over_bytes(numbers, slice, items, char_idx);
    at("bytes from character", char_idx, bytes)?;
    let chars = expect_walk_over_chars(numbers, slice, items, char_idx);
    at("chars from character", char_idx, chars)?;
    let lines = expect_walk_over_lines(numbers, slice, items, line_idx);
    at("lines from line", line_idx, lines)?;
    within(
        "chunks from the start",
        expect_walk(numbers, &mut slice.chunks(), from_start, items),
    )?;
    let chunks = expect_walk_over_chunks(numbers, slice, items, char_idx);
    at("chunks from character", char_idx, chunks)?;
    expect_walk_over_chunks(numbers, slice, items, end)
}

/// Fails unless walks over a slice succeed, if there is one.
fn expect_walks_over_slice(
    alloc: Global,
    numbers: &mut Numbers,
    slice: Option<RopeSlice<'_>>,
    plain: PlainSlice<'_>,
) -> Result<(), Failure> {
    let slice = some!(slice);
    let items = Items::new(alloc, plain)?;
    expect_walks(numbers, &slice, &items)
}

/// Fails unless walks over three random slices of a rope succeed.
fn expect_walks_over_slices(
    alloc: Global,
    numbers: &mut Numbers,
    pair: &Pair,
    all: &PlainSlice<'_>,
) -> Result<(), Failure> {
    for _ in 0..3 {
        let (start, end) = random_range(numbers, all.text.len());
        let slice = slice_of(numbers, pair, start, end);
        within(
            format_args!("slice {start}..{end}"),
            expect_walks_over_slice(alloc, numbers, slice, all.part(start, end)),
        )?;
    }
    Ok(())
}

/// Fails unless walks over three slices of a random rope succeed.
fn expect_walks_over_rope(
    alloc: Global,
    numbers: &mut Numbers,
    breaks: LineBreaks,
) -> Result<(), Failure> {
    let pair = edited(alloc, numbers, breaks)?;
    let ends = pair.chunk_ends(alloc)?;
    let all = PlainSlice::whole(&pair.plain, &ends, breaks);
    expect_walks_over_slices(alloc, numbers, &pair, &all)
}

/// Fails unless walks over a random plain text succeed.
fn expect_walks_over_text(
    alloc: Global,
    numbers: &mut Numbers,
    breaks: LineBreaks,
) -> Result<(), Failure> {
    let text = random_text(alloc, numbers, 300)?;
    let plain = chars_of(alloc, text.as_str())?;
    let ends = [plain.len()];
    let all = PlainSlice::whole(&plain, &ends, breaks);
    let slice = RopeSlice::from_str_with(text.as_str(), breaks);
    expect_walks_over_slice(alloc, numbers, Some(slice), all)
}

#[test]
fn cursors_over_slices_of_ropes_step_as_plain_ones(rt: HostRuntime) -> Result<(), Failure> {
    let seed = 0x2545_F491_4F6C_DD1D;
    let mut numbers = Numbers::new(seed);
    for turn in 0..3 * 115usize {
        let outcome = expect_walks_over_rope(rt.alloc(), &mut numbers, SETS[turn % 3]);
        at_turn(seed, turn, outcome)?;
    }
    Ok(())
}

#[test]
fn cursors_over_plain_texts_step_as_plain_ones(rt: HostRuntime) -> Result<(), Failure> {
    let seed = 0x8CB9_2BA7_2F3D_8DD7;
    let mut numbers = Numbers::new(seed);
    for turn in 0..3 * 330usize {
        let outcome = expect_walks_over_text(rt.alloc(), &mut numbers, SETS[turn % 3]);
        at_turn(seed, turn, outcome)?;
    }
    Ok(())
}
