//! Ropes with a range removed, split and joined again, against rows worked by hand.
use crate::texts::{add_letters, chunk_count};
use rope_plain::compare::{expect_plain_unicode, expect_text, expect_together, lens};
use rope_plain::failure::{Failure, expect_same, within};
use rope_plain::texts::{padded, rope_of};
use rope_plain::{holds, same};
use ropey::Rope;
use std::alloc::{AllocError, Global};

fn expect_ends_left(rope: &mut Rope) -> Result<(), Failure> {
    holds!(rope.len_chars() == 2_000);
    rope.remove(1..1_999)?;
    let counts = [
        rope.len_lines(),
        chunk_count(rope),
        rope.depth(),
        rope.capacity(),
    ];
    expect_plain_unicode(rope, &['\r', '\n'])?;
    expect_same("lines, chunks, depth, capacity", &counts, &[2, 1, 0, 984])
}

#[test]
fn a_removal_of_all_pairs_leaves_a_pair(rt: HostRuntime) -> Result<(), Failure> {
    let mut rope = rope_of(rt.alloc(), "\r\n", 1_000)?;
    expect_ends_left(&mut rope)
}

/// An edit of a clone of a million letters.
#[derive(Clone, Copy, Debug)]
enum Step {
    LeaveOne,
    LeaveTwenty,
    /// Splits at a character, with that many characters after it, and joins again.
    Split(usize, usize),
}

const STEPS: [Step; 8] = [
    Step::LeaveOne,
    Step::LeaveTwenty,
    Step::Split(1, 999_999),
    Step::Split(983, 999_017),
    Step::Split(984, 999_016),
    Step::Split(985, 999_015),
    Step::Split(500_000, 500_000),
    Step::Split(999_999, 1),
];

fn expect_one_left(rope: &mut Rope) -> Result<(), Failure> {
    rope.try_remove(0..999_999)?;
    expect_plain_unicode(rope, &['a'])?;
    let shape = [chunk_count(rope), rope.depth()];
    expect_same("chunks and depth", &shape, &[1, 0])
}

fn expect_twenty_left(rope: &mut Rope) -> Result<(), Failure> {
    rope.try_remove(10..999_990)?;
    expect_plain_unicode(rope, &['a'; 20])?;
    holds!(rope.depth() <= 1);
    Ok(())
}

/// Fails unless the back is split off at a character, and joined again.
fn expect_split(front: &mut Rope, char_idx: usize, rest: usize) -> Result<(), Failure> {
    let back = front.try_split_off(char_idx)?;
    let lens = [front.len_bytes(), back.len_bytes()];
    front.append(back)?;
    same!(lens, [char_idx, rest]);
    same!(front.len_bytes(), 1_000_000);
    holds!((3..=4).contains(&front.depth()));
    Ok(())
}

fn expect_step(rope: &mut Rope, step: Step) -> Result<(), Failure> {
    match step {
        Step::LeaveOne => expect_one_left(rope),
        Step::LeaveTwenty => expect_twenty_left(rope),
        Step::Split(char_idx, rest) => expect_split(rope, char_idx, rest),
    }
}

/// Fails unless a clone is edited.
fn expect_clone_done(whole: &Rope, step: Step) -> Result<(), Failure> {
    let mut rope = whole.clone()?;
    expect_step(&mut rope, step)
}

/// Fails unless a clone is edited, and the rope doesn't change.
fn expect_done(whole: &Rope, step: Step) -> Result<(), Failure> {
    expect_clone_done(whole, step)?;
    same!([whole.len_bytes(), whole.depth()], [1_000_000, 3]);
    let middle = whole.get_char(500_000);
    expect_same("the middle", &middle, &Some('a'))
}

fn expect_all_done(whole: &Rope) -> Result<(), Failure> {
    for (row, step) in STEPS.iter().enumerate() {
        within(
            format_args!("step {row}, {step:?}"),
            expect_done(whole, *step),
        )?;
    }
    Ok(())
}

#[test]
fn a_million_letters_are_cut_and_split(rt: HostRuntime) -> Result<(), Failure> {
    let whole = rope_of(rt.alloc(), "a", 1_000_000)?;
    expect_all_done(&whole)
}

fn add_split_pair(text: &mut String) -> Result<(), AllocError> {
    for (letter, count) in &[("a", 983), ("\r", 1), ("x", 984), ("\n", 1), ("b", 984)] {
        add_letters(text, letter, *count)?;
    }
    Ok(())
}

/// Returns a CR, 984 letters and an LF, between letters.
fn split_pair(alloc: Global) -> Result<String, AllocError> {
    let mut text = String::new(alloc);
    add_split_pair(&mut text)?;
    Ok(text)
}

/// Fails unless a pair meets where the letters between are removed.
fn expect_pair_joined_by_removal(rope: &mut Rope) -> Result<(), Failure> {
    rope.try_remove(984..1_968)?;
    same!(lens(rope), [1_969, 1_969, 2, 1_969]);
    expect_together(rope, 983)
}

#[test]
fn a_pair_joined_by_a_removal_is_in_one_chunk(rt: HostRuntime) -> Result<(), Failure> {
    let text = split_pair(rt.alloc())?;
    let mut rope = Rope::from_str(rt.alloc(), text.as_str())?;
    expect_pair_joined_by_removal(&mut rope)
}

fn expect_a_pair(rope: &Rope) -> Result<(), Failure> {
    let lines = [rope.try_char_to_line(984), rope.try_char_to_line(985)];
    same!(lens(rope), [985, 985, 2, 985]);
    same!(lines, [Ok(0), Ok(1)]);
    holds!(chunk_count(rope) >= 2);
    expect_together(rope, 983)
}

/// Fails unless a text of letters that ends in a pair is 983 of them and the pair.
fn expect_joined_text(alloc: Global, rope: &Rope) -> Result<(), Failure> {
    let text = padded(alloc, "", 985, "\r\n")?;
    expect_text(alloc, rope, text.as_str())
}

/// Fails unless a text of an LF is appended to one that ends in CR.
fn append_lf(alloc: Global, rope: &mut Rope) -> Result<(), Failure> {
    let lf = Rope::from_str(alloc, "\n")?;
    rope.append(lf)?;
    Ok(())
}

/// Fails unless a pair meets where an LF is appended to the CR at the end.
fn expect_pair_joined_by_append(alloc: Global, rope: &mut Rope) -> Result<(), Failure> {
    append_lf(alloc, rope)?;
    expect_a_pair(rope)?;
    expect_joined_text(alloc, rope)
}

#[test]
fn a_pair_joined_by_an_append_is_in_one_chunk(rt: HostRuntime) -> Result<(), Failure> {
    let text = padded(rt.alloc(), "", 984, "\r")?;
    let mut rope = Rope::from_str(rt.alloc(), text.as_str())?;
    expect_pair_joined_by_append(rt.alloc(), &mut rope)
}
