//! Long texts of CR and LF alone, against rows worked by hand and plain lists of characters.
use crate::texts::add_letters;
use rope_plain::compare::{expect_text, lens};
use rope_plain::failure::{Failure, at, expect_same};
use rope_plain::texts::{repeated, rope_of};
use rope_plain::{holds, same};
use ropey::Rope;
use std::alloc::{AllocError, Global};

/// Appends a text `times` times, and then another.
fn add_both(
    text: &mut String,
    first: &str,
    count: usize,
    second: &str,
    more: usize,
) -> Result<(), AllocError> {
    add_letters(text, first, count)?;
    add_letters(text, second, more)
}

/// Returns a text, repeated, and then another.
fn text_of(
    alloc: Global,
    first: &str,
    count: usize,
    second: &str,
    more: usize,
) -> Result<String, AllocError> {
    let mut text = String::new(alloc);
    add_both(&mut text, first, count, second, more)?;
    Ok(text)
}

/// The number of edits between two comparisons of the whole text.
const BETWEEN: usize = 40;

fn expect_text_of(
    alloc: Global,
    rope: &Rope,
    first: &str,
    count: usize,
    second: &str,
    more: usize,
) -> Result<(), Failure> {
    let text = text_of(alloc, first, count, second, more)?;
    expect_text(alloc, rope, text.as_str())
}

/// Fails unless the LF of each pair is removed, the first one first. The number of breaks stays.
fn expect_taken_apart(alloc: Global, rope: &mut Rope) -> Result<(), Failure> {
    for i in 0..2_000usize {
        rope.try_remove(i + 1..i + 2)?;
        let len = 3_999 - i;
        same!(lens(rope), [len, len, 2_001, len]);
        if i % BETWEEN == 0 {
            let outcome = expect_text_of(alloc, rope, "\r", i + 1, "\r\n", 1_999 - i);
            at("edit", i, outcome)?;
        }
    }
    Ok(())
}

/// Fails unless an LF is inserted after each CR, the first one first. The number of breaks stays.
fn expect_put_together(alloc: Global, rope: &mut Rope) -> Result<(), Failure> {
    for i in 0..2_000usize {
        rope.try_insert(2 * i + 1, "\n")?;
        let len = 2_001 + i;
        same!(lens(rope), [len, len, 2_001, len]);
        if i % BETWEEN == 0 {
            let outcome = expect_text_of(alloc, rope, "\r\n", i + 1, "\r", 1_999 - i);
            at("edit", i, outcome)?;
        }
    }
    Ok(())
}

/// Fails unless the rope has 2,000 CR.
fn expect_crs_alone(alloc: Global, rope: &Rope) -> Result<(), Failure> {
    let crs = repeated(alloc, "\r", 2_000)?;
    holds!(rope.eq_str(crs.as_str()));
    expect_same("lens(rope)", &lens(rope), &[2_000, 2_000, 2_001, 2_000])
}

fn expect_pairs_again(alloc: Global, rope: &mut Rope, first: &Rope) -> Result<(), Failure> {
    expect_taken_apart(alloc, rope)?;
    expect_crs_alone(alloc, rope)?;
    expect_put_together(alloc, rope)?;
    same!(*rope, *first);
    expect_same("lens(rope)", &lens(rope), &[4_000, 4_000, 2_001, 4_000])
}

/// Fails unless the pairs of a clone are split and restored, and it has the text of the rope again.
fn expect_clone_edited(alloc: Global, first: &Rope) -> Result<(), Failure> {
    let mut rope = first.clone()?;
    expect_pairs_again(alloc, &mut rope, first)
}

#[test]
fn pairs_are_taken_apart_and_put_together(rt: HostRuntime) -> Result<(), Failure> {
    let first = rope_of(rt.alloc(), "\r\n", 2_000)?;
    expect_clone_edited(rt.alloc(), &first)
}
