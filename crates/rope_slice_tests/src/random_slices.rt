//! Random slices of slices, of ropes and of plain texts, against the model.
use crate::cuts::{between, byte_between, byte_part, part};
use crate::plain_slice::PlainSlice;
use crate::rows::at_turn;
use crate::slice_model::{expect_lookups_at, expect_whole};
use rope_plain::compare::SETS;
use rope_plain::failure::{Failure, at};
use rope_plain::numbers::Numbers;
use rope_plain::pair::Pair;
use rope_plain::plain_text::char_to_byte;
use rope_plain::some;
use rope_plain::sums::{minus, plus};
use rope_plain::texts::{chars_of, random_edit_text, random_text};
use ropey::{Error, LineBreaks, RopeSlice};
use std::alloc::Global;

/// The number of inserts and removals of a rope before it is sliced.
const EDITS: usize = 12;

/// The number of nested slices.
const DEPTH: usize = 4;

/// The number of indices of each slice that are compared, besides its end.
const PLACES: usize = 4;

/// Inserts a random text at a random index.
fn insert(pair: &mut Pair, alloc: Global, numbers: &mut Numbers) -> Result<(), Error> {
    let char_idx = pair.place(numbers);
    let text = random_edit_text(alloc, numbers)?;
    pair.insert(alloc, char_idx, text.as_str())
}

/// Removes up to 300 characters.
fn remove(pair: &mut Pair, alloc: Global, numbers: &mut Numbers) -> Result<(), Error> {
    let start = pair.place(numbers);
    let end = plus(start, numbers.up_to(300)).min(pair.plain.len());
    pair.remove(alloc, start, end)
}

/// Returns a rope of a random text.
fn random_pair(alloc: Global, numbers: &mut Numbers, breaks: LineBreaks) -> Result<Pair, Error> {
    let text = random_text(alloc, numbers, 4_000)?;
    Pair::new(alloc, text.as_str(), breaks)
}

/// Returns a rope with chunks of uneven lengths.
pub fn edited(alloc: Global, numbers: &mut Numbers, breaks: LineBreaks) -> Result<Pair, Error> {
    let mut pair = random_pair(alloc, numbers, breaks)?;
    for _ in 0..EDITS {
        insert(&mut pair, alloc, numbers)?;
        remove(&mut pair, alloc, numbers)?;
    }
    Ok(pair)
}

/// Returns a start and an end; of two such ranges one is short and one leaves little out.
pub fn random_range(numbers: &mut Numbers, len: usize) -> (usize, usize) {
    let start = if numbers.up_to(1) == 0 {
        numbers.up_to(len)
    } else {
        numbers.up_to(len / 8)
    };
    let rest = minus(len, start);
    let left_out = if numbers.up_to(1) == 0 {
        numbers.up_to(rest)
    } else {
        numbers.up_to(rest / 8)
    };
    (start, minus(len, left_out))
}

/// Returns a range of a rope, given in characters or in bytes.
pub fn slice_of<'a>(
    numbers: &mut Numbers,
    pair: &'a Pair,
    start: usize,
    end: usize,
) -> Option<RopeSlice<'a>> {
    if numbers.up_to(1) == 0 {
        return between(&pair.rope, start, end);
    }
    let start = char_to_byte(&pair.plain, start);
    let end = char_to_byte(&pair.plain, end);
    byte_between(&pair.rope, start, end)
}

/// Returns a range of a slice, given in characters or in bytes.
fn part_of<'a>(
    numbers: &mut Numbers,
    slice: &RopeSlice<'a>,
    plain: &PlainSlice<'_>,
    start: usize,
    end: usize,
) -> Option<RopeSlice<'a>> {
    if numbers.up_to(1) == 0 {
        return part(slice, start, end);
    }
    let start = char_to_byte(plain.text, start);
    let end = char_to_byte(plain.text, end);
    byte_part(slice, start, end)
}

/// Fails unless a slice is right in whole, at some indices and at its end.
fn expect_slice(
    numbers: &mut Numbers,
    slice: &RopeSlice<'_>,
    plain: &PlainSlice<'_>,
) -> Result<(), Failure> {
    for _ in 0..PLACES {
        expect_lookups_at(slice, plain, numbers.up_to(plain.text.len()))?;
    }
    expect_whole(slice, plain)?;
    expect_lookups_at(slice, plain, plain.text.len())
}

/// Fails unless a slice is right, and slices each within the one before.
fn expect_nested<'a>(
    numbers: &mut Numbers,
    whole: RopeSlice<'a>,
    all: PlainSlice<'a>,
) -> Result<(), Failure> {
    let mut slice = whole;
    let mut plain = all;
    for depth in 0..DEPTH {
        let outcome = expect_slice(numbers, &slice, &plain);
        at("depth", depth, at("from character", plain.before, outcome))?;
        let (start, end) = random_range(numbers, plain.text.len());
        slice = some!(part_of(numbers, &slice, &plain, start, end));
        plain = plain.part(start, end);
    }
    expect_slice(numbers, &slice, &plain)
}

/// Fails unless a slice of a rope is right, and those within it.
fn expect_sliced(numbers: &mut Numbers, pair: &Pair, all: &PlainSlice<'_>) -> Result<(), Failure> {
    let (start, end) = random_range(numbers, pair.plain.len());
    let slice = some!(slice_of(numbers, pair, start, end));
    expect_nested(numbers, slice, all.part(start, end))
}

/// The number of slices of each rope that are compared.
const SLICES: usize = 4;

/// Fails unless slices of one rope are right.
fn expect_all_sliced(
    numbers: &mut Numbers,
    pair: &Pair,
    ends: &[usize],
    breaks: LineBreaks,
) -> Result<(), Failure> {
    let all = PlainSlice::whole(&pair.plain, ends, breaks);
    for _ in 0..SLICES {
        expect_sliced(numbers, pair, &all)?;
    }
    Ok(())
}

/// Fails unless slices of a random rope are right.
fn expect_rope_sliced(
    alloc: Global,
    numbers: &mut Numbers,
    breaks: LineBreaks,
) -> Result<(), Failure> {
    let pair = edited(alloc, numbers, breaks)?;
    let ends = pair.chunk_ends(alloc)?;
    expect_all_sliced(numbers, &pair, &ends, breaks)
}

/// Fails unless slices of a plain text are right.
fn expect_text_sliced(
    numbers: &mut Numbers,
    text: &str,
    plain: &[char],
    breaks: LineBreaks,
) -> Result<(), Failure> {
    let ends = [plain.len()];
    let all = PlainSlice::whole(plain, &ends, breaks);
    expect_nested(numbers, RopeSlice::from_str_with(text, breaks), all)
}

/// Fails unless slices of a random plain text are right.
fn expect_str_sliced(
    alloc: Global,
    numbers: &mut Numbers,
    breaks: LineBreaks,
) -> Result<(), Failure> {
    let text = random_text(alloc, numbers, 2_000)?;
    let plain = chars_of(alloc, text.as_str())?;
    expect_text_sliced(numbers, text.as_str(), &plain, breaks)
}

#[test]
fn slices_of_random_ropes_equal_their_lists(rt: HostRuntime) -> Result<(), Failure> {
    let seed = 0x9E37_79B9_7F4A_7C15;
    let mut numbers = Numbers::new(seed);
    for turn in 0..3 * 40usize {
        let outcome = expect_rope_sliced(rt.alloc(), &mut numbers, SETS[turn % 3]);
        at_turn(seed, turn, outcome)?;
    }
    Ok(())
}

#[test]
fn slices_of_random_plain_texts_equal_their_lists(rt: HostRuntime) -> Result<(), Failure> {
    let seed = 0xD1B5_4A32_D192_ED03;
    let mut numbers = Numbers::new(seed);
    for turn in 0..3 * 100usize {
        let outcome = expect_str_sliced(rt.alloc(), &mut numbers, SETS[turn % 3]);
        at_turn(seed, turn, outcome)?;
    }
    Ok(())
}
