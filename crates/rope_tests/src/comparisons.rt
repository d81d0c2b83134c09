//! Equality and order, which depend on the text, not on its chunks.
use crate::ropes::rope_of;
use crate::rows::at_round;
use rope_plain::failure::{Failure, expect_same};
use rope_plain::numbers::Numbers;
use rope_plain::same;
use rope_plain::texts::random_text;
use ropey::{Rope, RopeSlice};
use std::alloc::Global;
use std::hash::{FoldHasher, Hash, Hasher};
use std::process::Abort;

/// Appends each character of the text.
fn type_text(rope: &mut Rope, text: &str) -> Result<(), Failure> {
    for c in text.chars() {
        let end = rope.len_chars();
        rope.insert_char(end, c)?;
    }
    Ok(())
}

fn hash_of<T: Hash>(value: &T) -> u64 {
    let mut hasher = FoldHasher::default();
    value.hash(&mut hasher);
    hasher.finish()
}

/// Fails unless the ropes are equal as the texts are, and so are slices of them and their hashes.
fn expect_equal_as_texts((a, b): (&Rope, &Rope), (s, t): (&str, &str)) -> Result<(), Failure> {
    let (slice, other) = (RopeSlice::from(s), b.slice(..));
    let are_equal = [
        a == b,
        a.eq_str(t),
        hash_of(a) == hash_of(b),
        slice == other,
        other.eq_str(s),
    ];
    same!(are_equal, [s == t; 5]);
    expect_same("hash_of(&slice)", &hash_of(&slice), &hash_of(a))
}

/// Fails unless the ropes are ordered as the texts are, in both directions, and so are slices of
/// them.
fn expect_ordered_as_texts((a, b): (&Rope, &Rope), (s, t): (&str, &str)) -> Result<(), Failure> {
    let orders = [
        Some(a.cmp(b)),
        a.partial_cmp(b),
        Some(RopeSlice::from(s).cmp(&b.slice(..))),
        Some(b.cmp(a)),
    ];
    let order = Some(s.cmp(t));
    let expected = [order, order, order, Some(t.cmp(s))];
    expect_same("orders", &orders, &expected)
}

/// Fails unless the ropes compare as the texts do.
fn expect_compared_as_texts(ropes: (&Rope, &Rope), texts: (&str, &str)) -> Result<(), Failure> {
    expect_equal_as_texts(ropes, texts)?;
    expect_ordered_as_texts(ropes, texts)
}

/// Fails unless a rope compares with one that was changed as their texts do.
fn expect_compared_with_changed(
    alloc: Global,
    (rope, text): (&Rope, &str),
    other: &Rope,
) -> Result<(), Failure> {
    let changed = other.try_to_string(alloc)?;
    expect_compared_as_texts((rope, other), (text, changed.as_str()))
}

/// Fails unless another rope of the text, typed character by character, compares so, before and
/// after an insert.
fn expect_compared_with_typed(
    alloc: Global,
    other: &mut Rope,
    (rope, text): (&Rope, &str),
    numbers: &mut Numbers,
) -> Result<(), Failure> {
    type_text(other, text)?;
    expect_compared_as_texts((rope, other), (text, text))?;
    let place = numbers.up_to(other.len_chars());
    other.try_insert_char(place, 'é')?;
    expect_compared_with_changed(alloc, (rope, text), other)
}

/// Fails unless a rope of the text compares so with one that starts empty.
fn expect_compared(
    rt: &impl Abort,
    alloc: Global,
    rope: &Rope,
    text: &str,
    numbers: &mut Numbers,
) -> Result<(), Failure> {
    let mut other = rope_of(rt, alloc, "");
    expect_compared_with_typed(alloc, &mut other, (rope, text), numbers)
}

fn expect_random_compared(
    rt: &impl Abort,
    alloc: Global,
    numbers: &mut Numbers,
) -> Result<(), Failure> {
    let text = random_text(alloc, numbers, 3_000).expect(rt, "there is memory");
    let rope = rope_of(rt, alloc, text.as_str());
    expect_compared(rt, alloc, &rope, text.as_str(), numbers)
}

/// The start of the random sequence.
const SEED: u64 = 0x9E37_79B9_7F4A_7C15;

#[test]
fn random_ropes_compare_as_their_texts(rt: HostRuntime) -> Result<(), Failure> {
    let mut numbers = Numbers::new(SEED);
    for round in 0..6 {
        let outcome = expect_random_compared(&rt, rt.alloc(), &mut numbers);
        at_round(SEED, round, outcome)?;
    }
    Ok(())
}
