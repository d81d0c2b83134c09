//! Ropes of random texts by each set of line breaks, against plain lists of characters.
use crate::places::expect_lookups_at;
use crate::rows::at_turn;
use rope_plain::compare::{SETS, expect_few_chunks, expect_plain};
use rope_plain::failure::Failure;
use rope_plain::numbers::Numbers;
use rope_plain::texts::{chars_of, random_text};
use ropey::{LineBreaks, Rope};
use std::alloc::Global;

/// Fails unless lookups at some indices of a rope agree with a plain list.
fn expect_places(rope: &Rope, plain: &[char], numbers: &mut Numbers) -> Result<(), Failure> {
    for _ in 0..20 {
        expect_lookups_at(rope, plain, numbers.up_to(plain.len()))?;
    }
    Ok(())
}

/// Fails unless a rope equals a plain list, in whole and at some indices.
fn expect_plain_at_indices(
    rope: &Rope,
    plain: &[char],
    breaks: LineBreaks,
    numbers: &mut Numbers,
) -> Result<(), Failure> {
    expect_plain(rope, plain, breaks)?;
    expect_few_chunks(rope)?;
    expect_places(rope, plain, numbers)
}

fn expect_text_by(
    alloc: Global,
    text: &str,
    numbers: &mut Numbers,
    breaks: LineBreaks,
) -> Result<(), Failure> {
    let plain = chars_of(alloc, text)?;
    let rope = Rope::from_str_with(alloc, text, breaks)?;
    expect_plain_at_indices(&rope, &plain, breaks, numbers)
}

/// Fails unless a rope of a text of up to 4,000 bytes is right.
fn expect_random_text(
    alloc: Global,
    numbers: &mut Numbers,
    breaks: LineBreaks,
) -> Result<(), Failure> {
    let text = random_text(alloc, numbers, 4_000)?;
    expect_text_by(alloc, text.as_str(), numbers, breaks)
}

/// The start of the random sequence.
const SEED: u64 = 0x9E37_79B9_7F4A_7C15;

#[test]
fn ropes_of_random_texts_equal_their_lists(rt: HostRuntime) -> Result<(), Failure> {
    let mut numbers = Numbers::new(SEED);
    for turn in 0..3 * 50usize {
        let outcome = expect_random_text(rt.alloc(), &mut numbers, SETS[turn % 3]);
        at_turn(SEED, turn, outcome)?;
    }
    Ok(())
}
