//! Random edits of ropes and their clones, against plain lists of characters.
use rope_plain::compare::expect_few_chunks;
use rope_plain::failure::{Failure, at, within};
use rope_plain::numbers::Numbers;
use rope_plain::pair::Pair;
use rope_plain::sums::plus;
use rope_plain::texts::random_edit_text;
use ropey::{Error, LineBreaks};
use std::alloc::{AllocError, Global};

/// The number of edits between two comparisons of all ropes.
const BETWEEN: usize = 100;

/// The maximum number of ropes.
const MOST: usize = 8;

/// A longer text loses half of its characters, a shorter one gets more.
const LONG: usize = 30_000;

const SHORT: usize = 200;

/// The last edit, with its index and its length in bytes or characters.
#[derive(Clone, Copy, Debug)]
enum Command {
    Insert { at: usize, bytes: usize },
    InsertChar { at: usize, c: char },
    Remove { from: usize, to: usize },
    Split { at: usize },
    Append,
    Clone,
}

/// Inserts a random text at a random index.
fn insert(pair: &mut Pair, alloc: Global, numbers: &mut Numbers) -> Result<Command, Error> {
    let at = pair.place(numbers);
    let text = random_edit_text(alloc, numbers)?;
    let bytes = text.len();
    pair.insert(alloc, at, text.as_str())?;
    Ok(Command::Insert { at, bytes })
}

fn insert_char(pair: &mut Pair, alloc: Global, numbers: &mut Numbers) -> Result<Command, Error> {
    let at = pair.place(numbers);
    let c = ['\r', '\n', 'x', '🐸'][numbers.take() % 4];
    pair.insert_char(alloc, at, c)?;
    Ok(Command::InsertChar { at, c })
}

/// Removes up to `most` characters.
fn remove(
    pair: &mut Pair,
    alloc: Global,
    numbers: &mut Numbers,
    most: usize,
) -> Result<Command, Error> {
    let from = pair.place(numbers);
    let count = numbers.up_to(most);
    let to = plus(from, count).min(pair.plain.len());
    pair.remove(alloc, from, to)?;
    Ok(Command::Remove { from, to })
}

/// Edits one rope, and keeps its length within bounds.
fn edit_one(pair: &mut Pair, alloc: Global, numbers: &mut Numbers) -> Result<Command, Error> {
    let len = pair.plain.len();
    if len > LONG {
        return remove(pair, alloc, numbers, LONG);
    }
    if len < SHORT {
        return insert(pair, alloc, numbers);
    }
    match numbers.take() % 16 {
        0..=4 => insert(pair, alloc, numbers),
        5..=9 => insert_char(pair, alloc, numbers),
        10..=14 => remove(pair, alloc, numbers, 12),
        _ => remove(pair, alloc, numbers, 1_500),
    }
}

/// Moves one of the ropes to the end of the list.
fn choose(pairs: &mut [Pair], numbers: &mut Numbers) {
    if let Some(last) = pairs.len().checked_sub(1) {
        pairs.swap(numbers.take() % pairs.len(), last);
    }
}

/// Swaps the last two.
fn swap_last(pairs: &mut [Pair]) {
    let len = pairs.len();
    if len >= 2 {
        pairs.swap(len - 1, len - 2);
    }
}

fn keep(pairs: &mut Vec<Pair>, pair: Pair) -> Result<(), Error> {
    pairs.push(pair).map_err(AllocError::from)?;
    Ok(())
}

/// Adds a clone of the last rope.
fn add_copy(pairs: &mut Vec<Pair>) -> Result<(), Error> {
    match pairs.last() {
        Some(last) => {
            let copy = last.copy()?;
            keep(pairs, copy)
        }
        None => Ok(()),
    }
}

/// Splits the last rope, with the front last.
fn split_last(
    pairs: &mut Vec<Pair>,
    alloc: Global,
    numbers: &mut Numbers,
) -> Result<Command, Error> {
    let Some(last) = pairs.last_mut() else {
        return Ok(Command::Split { at: 0 });
    };
    let at = last.place(numbers);
    let back = last.split_off(alloc, at)?;
    keep(pairs, back)?;
    swap_last(pairs);
    Ok(Command::Split { at })
}

/// Appends the last but one to the last, if there are two.
fn join_last(pairs: &mut Vec<Pair>) -> Result<(), Error> {
    if pairs.len() < 2 {
        return Ok(());
    }
    swap_last(pairs);
    let Some(other) = pairs.pop() else {
        return Ok(());
    };
    match pairs.last_mut() {
        Some(last) => last.append(other),
        None => keep(pairs, other),
    }
}

/// Splits the last rope, or joins the last two.
fn edit_two(pairs: &mut Vec<Pair>, alloc: Global, numbers: &mut Numbers) -> Result<Command, Error> {
    let has_room = pairs.len() < MOST;
    match numbers.take() % 3 {
        0 if has_room => {
            add_copy(pairs)?;
            Ok(Command::Clone)
        }
        1 if has_room => split_last(pairs, alloc, numbers),
        _ => {
            join_last(pairs)?;
            Ok(Command::Append)
        }
    }
}

/// Makes an edit, one in eight of more than one rope.
fn edit_once(
    pairs: &mut Vec<Pair>,
    alloc: Global,
    numbers: &mut Numbers,
) -> Result<Command, Error> {
    choose(pairs, numbers);
    if numbers.take() % 8 == 0 {
        return edit_two(pairs, alloc, numbers);
    }
    match pairs.last_mut() {
        Some(pair) => edit_one(pair, alloc, numbers),
        None => Ok(Command::Clone),
    }
}

/// Fails unless the rope that was edited last is right.
fn expect_last(pairs: &[Pair], breaks: LineBreaks) -> Result<(), Failure> {
    match pairs.last() {
        Some(last) => last.expect_same(breaks),
        None => Ok(()),
    }
}

/// Fails unless the edited rope is right after each edit of a round.
fn expect_edits(
    pairs: &mut Vec<Pair>,
    alloc: Global,
    numbers: &mut Numbers,
    breaks: LineBreaks,
) -> Result<(), Failure> {
    for edit in 0..BETWEEN {
        let command = edit_once(pairs, alloc, numbers)?;
        within(
            format_args!("edit {edit}, {command:?}"),
            expect_last(pairs, breaks),
        )?;
    }
    Ok(())
}

/// Adds a clone of each rope.
fn add_copies(all: &mut Vec<Pair>, pairs: &[Pair]) -> Result<(), Error> {
    for pair in pairs {
        let copy = pair.copy()?;
        keep(all, copy)?;
    }
    Ok(())
}

/// Fails unless all ropes are right; `which` names them.
fn expect_all(pairs: &[Pair], breaks: LineBreaks, which: &str) -> Result<(), Failure> {
    for (i, pair) in pairs.iter().enumerate() {
        at(which, i, pair.expect_same(breaks))?;
    }
    Ok(())
}

/// Fails unless a rope is right, in few chunks, after it is re-chunked.
fn expect_shrunk(pair: &mut Pair, breaks: LineBreaks) -> Result<(), Failure> {
    pair.rope.shrink_to_fit()?;
    pair.expect_same(breaks)?;
    expect_few_chunks(&pair.rope)
}

fn expect_all_shrunk(pairs: &mut [Pair], breaks: LineBreaks) -> Result<(), Failure> {
    for (i, pair) in pairs.iter_mut().enumerate() {
        at("shrunk rope", i, expect_shrunk(pair, breaks))?;
    }
    Ok(())
}

/// The number of rounds of edits before all ropes are re-chunked.
const BETWEEN_SHRINKS: usize = 16;

/// Fails unless the ropes are right after a round of edits, and the clones made before it too.
fn expect_round(
    pairs: &mut Vec<Pair>,
    alloc: Global,
    numbers: &mut Numbers,
    breaks: LineBreaks,
    round: usize,
) -> Result<(), Failure> {
    let mut clones = Vec::new(alloc);
    add_copies(&mut clones, pairs)?;
    expect_edits(pairs, alloc, numbers, breaks)?;
    expect_all(pairs, breaks, "rope")?;
    if round % BETWEEN_SHRINKS == 0 {
        expect_all_shrunk(pairs, breaks)?;
    }
    expect_all(&clones, breaks, "clone")
}

/// The start of all random sequences.
const SEED: u64 = 0x9E37_79B9_7F4A_7C15;

/// Fails unless rounds of edits succeed on ropes, after an empty one is added.
fn expect_rounds_of(
    pairs: &mut Vec<Pair>,
    alloc: Global,
    breaks: LineBreaks,
    rounds: usize,
) -> Result<(), Failure> {
    let mut numbers = Numbers::new(SEED);
    keep(pairs, Pair::new(alloc, "", breaks)?)?;
    for round in 1..=rounds {
        let outcome = expect_round(pairs, alloc, &mut numbers, breaks, round);
        at("round", round, outcome)?;
    }
    Ok(())
}

/// Fails unless rounds of edits succeed on ropes of one set of line breaks, the first of which is
/// empty.
fn expect_rounds(alloc: Global, breaks: LineBreaks, rounds: usize) -> Result<(), Failure> {
    let mut pairs = Vec::new(alloc);
    let outcome = expect_rounds_of(&mut pairs, alloc, breaks, rounds);
    within(
        format_args!("line breaks {breaks:?}, seed {SEED:#x}"),
        outcome,
    )
}

#[test]
fn ropes_and_clones_equal_their_lists_through_20_000_edits(rt: HostRuntime) -> Result<(), Failure> {
    expect_rounds(rt.alloc(), LineBreaks::Unicode, 200)
}

#[test]
fn ropes_by_lf_equal_their_lists_through_6_000_edits(rt: HostRuntime) -> Result<(), Failure> {
    expect_rounds(rt.alloc(), LineBreaks::Lf, 60)
}

#[test]
fn ropes_by_cr_and_lf_equal_their_lists_through_6_000_edits(
    rt: HostRuntime,
) -> Result<(), Failure> {
    expect_rounds(rt.alloc(), LineBreaks::CrLf, 60)
}
