//! Removals over many chunks of a long rope, against a plain list of characters.
use rope_plain::compare::expect_no_short_chunks;
use rope_plain::failure::{Failure, at, within};
use rope_plain::numbers::Numbers;
use rope_plain::pair::Pair;
use rope_plain::sums::plus;
use rope_plain::texts::repeated;
use ropey::{Error, LineBreaks};
use std::alloc::Global;

/// The start of the random sequence of ranges.
const SEED: u64 = 0x2545_F491_4F6C_DD1D;

/// Removes 2,000 to 22,000 characters at a random index, as far as there are any.
fn remove(pair: &mut Pair, alloc: Global, numbers: &mut Numbers) -> Result<(), Error> {
    let from = pair.place(numbers);
    let count = plus(2_000, numbers.up_to(20_000));
    let to = plus(from, count).min(pair.plain.len());
    pair.remove(alloc, from, to)
}

/// Fails unless a rope with no clone is right after a removal.
fn expect_removal(pair: &mut Pair, alloc: Global, numbers: &mut Numbers) -> Result<(), Failure> {
    remove(pair, alloc, numbers)?;
    pair.expect_same(LineBreaks::Unicode)?;
    expect_no_short_chunks(&pair.rope)
}

/// Fails unless a rope is right after a removal, and its clone doesn't change.
fn expect_removal_beside_clone(
    pair: &mut Pair,
    alloc: Global,
    numbers: &mut Numbers,
) -> Result<(), Failure> {
    let clone = pair.copy()?;
    expect_removal(pair, alloc, numbers)?;
    clone.expect_same(LineBreaks::Unicode)
}

fn expect_removals(pair: &mut Pair, alloc: Global) -> Result<(), Failure> {
    let mut numbers = Numbers::new(SEED);
    for round in 0..48usize {
        let outcome = if round % 6 == 5 {
            expect_removal_beside_clone(pair, alloc, &mut numbers)
        } else {
            expect_removal(pair, alloc, &mut numbers)
        };
        at("removal", round, outcome)?;
    }
    Ok(())
}

#[test]
fn long_removals_leave_the_text_around_them(rt: HostRuntime) -> Result<(), Failure> {
    let text = repeated(rt.alloc(), "one line\nä second 🐸\r\nthird ", 20_000)?;
    let mut pair = Pair::new(rt.alloc(), text.as_str(), LineBreaks::Unicode)?;
    let outcome = expect_removals(&mut pair, rt.alloc());
    within(format_args!("seed {SEED:#x}"), outcome)
}
