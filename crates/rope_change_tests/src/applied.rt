//! Random changes of long ropes and of their clones, against plain lists of characters.
use crate::makers::{Sizes, apply, copy, replace_after, rope_of};
use rope_changes::ChangeSet;
use rope_plain::compare::expect_plain_unicode;
use rope_plain::failure::{Failure, within};
use rope_plain::numbers::Numbers;
use rope_plain::texts::{chars_of, random_text};
use ropey::Rope;
use std::alloc::Global;
use std::process::Abort;

/// The number of changes of one rope.
const ROUNDS: usize = 60;

/// A longer text loses characters by the next change, a shorter one gets more.
const LONG: usize = 120_000;

const SHORT: usize = 20_000;

/// Carets, words, many ranges in each chunk, removed chunks, new chunks, and few long ranges.
const SIZES: [Sizes; 6] = [
    Sizes {
        kept: 2_000,
        deleted: 0,
        inserted: 3,
    },
    Sizes {
        kept: 300,
        deleted: 9,
        inserted: 12,
    },
    Sizes {
        kept: 20,
        deleted: 3,
        inserted: 3,
    },
    Sizes {
        kept: 3_000,
        deleted: 2_500,
        inserted: 9,
    },
    Sizes {
        kept: 5_000,
        deleted: 40,
        inserted: 1_900,
    },
    Sizes {
        kept: 40_000,
        deleted: 20_000,
        inserted: 4_200,
    },
];

/// Draws the sizes of a change of a text of this length.
fn sizes_for(numbers: &mut Numbers, len: usize) -> Sizes {
    if len > LONG {
        SIZES[3]
    } else if len < SHORT {
        SIZES[4]
    } else {
        SIZES[numbers.take() % 6]
    }
}

/// Returns a change of ranges up to the end of a text, and the text after it.
fn random_change(
    rt: &impl Abort,
    alloc: Global,
    numbers: &mut Numbers,
    sizes: Sizes,
    text: &[char],
) -> (ChangeSet, Vec<char>) {
    let mut change = ChangeSet::new(alloc, text.len()).expect(rt, "the text fits");
    let mut after = Vec::new(alloc);
    let mut at = 0;
    for _ in 0..text.len() {
        if at >= text.len() {
            break;
        }
        at = replace_after(rt, alloc, numbers, sizes, text, at, &mut change, &mut after);
    }
    copy(rt, &mut after, text, at, text.len());
    (change, after)
}

/// Fails unless a rope has a text, and its clone the text before.
fn expect_both(rope: &Rope, text: &[char], clone: &Rope, before: &[char]) -> Result<(), Failure> {
    expect_plain_unicode(rope, text)?;
    within("clone", expect_plain_unicode(clone, before))
}

/// Fails unless a change gives its text, and leaves a clone. The text becomes the list.
fn expect_change(
    rt: &impl Abort,
    alloc: Global,
    numbers: &mut Numbers,
    sizes: Sizes,
    rope: &mut Rope,
    text: &mut Vec<char>,
) -> Result<(), Failure> {
    let clone = rope.clone()?;
    let (change, after) = random_change(rt, alloc, numbers, sizes, text);
    apply(rt, &change, rope);
    let outcome = expect_both(rope, &after, &clone, text);
    *text = after;
    outcome
}

fn expect_rounds(
    rt: &impl Abort,
    alloc: Global,
    numbers: &mut Numbers,
    rope: &mut Rope,
    text: &mut Vec<char>,
) -> Result<(), Failure> {
    for round in 0..ROUNDS {
        let sizes = sizes_for(numbers, text.len());
        let outcome = expect_change(rt, alloc, numbers, sizes, rope, text);
        within(format_args!("round {round}, {sizes:?}"), outcome)?;
    }
    Ok(())
}

fn expect_changes(rt: &impl Abort, alloc: Global, seed: u64) -> Result<(), Failure> {
    let mut numbers = Numbers::new(seed);
    let text = random_text(alloc, &mut numbers, 60_000)?;
    let mut rope = rope_of(rt, alloc, text.as_str());
    let mut chars = chars_of(alloc, text.as_str())?;
    expect_rounds(rt, alloc, &mut numbers, &mut rope, &mut chars)
}

#[test]
fn random_changes_of_long_ropes_are_those_of_lists(rt: HostRuntime) -> Result<(), Failure> {
    for seed in 1..=4 {
        within(
            format_args!("seed {seed}"),
            expect_changes(&rt, rt.alloc(), seed),
        )?;
    }
    Ok(())
}
