//! Changes as values: made and applied, inverted and composed, and indices moved through them.
ghost use Rattle.std.specs.Prelude.{◌≤◌, IfOk};
ghost use Rattle.std.specs.List.{All};

use crate::fault::Fault;
use crate::measure::{Outcome, mix, now, whole};
use crate::numbers::Numbers;
use crate::sample::Sample;
use rope_changes::{ChangeSet, Side};
use ropey::Rope;
use std::alloc::Global;
use std::time::CpuClock;

/// The number of replacements of a change, in full.
const REPLACEMENTS: usize = 1_000;

/// The number of changes that are applied to a rope.
const ROUNDS: usize = 10;

/// The number of characters that a replacement deletes.
const WORD: usize = 5;

/// A workload with changes.
#[derive(Clone, Copy)]
pub enum Changing {
    /// Types characters in a row, each by a change of its own.
    Type,
    /// Types a character at each of many carets.
    Carets,
    /// Replaces many words.
    Words,
    /// Inverts the change of many words.
    Invert,
    /// Composes two changes of many words.
    Compose,
    /// Moves many indices through the change of many words.
    Indices,
}

impl Changing {
    /// Returns the name of the workload.
    pub fn name(self) -> &'static str {
        match self {
            Changing::Type => "changes_type",
            Changing::Carets => "changes_carets",
            Changing::Words => "changes_words",
            Changing::Invert => "changes_invert",
            Changing::Compose => "changes_compose",
            Changing::Indices => "changes_indices",
        }
    }
}

/// Runs the workload.
pub fn change<C: CpuClock>(clock: &C, sample: &Sample, what: Changing) -> Result<Outcome, Fault> {
    match what {
        Changing::Type => type_in_a_row(clock, sample),
        Changing::Carets => edit_in_rounds(clock, sample, 0, "x"),
        Changing::Words => edit_in_rounds(clock, sample, WORD, "words"),
        Changing::Invert => invert(clock, sample),
        Changing::Compose => compose(clock, sample),
        Changing::Indices => move_indices(clock, sample),
    }
}

/// Returns a change that replaces `deleted` characters at each of `count` random places, in order.
fn change_of(
    alloc: Global,
    len: usize,
    count: usize,
    deleted: usize,
    text: &str,
    numbers: &mut Numbers,
) -> Result<ChangeSet, Fault> {
    let mut change = ChangeSet::new(alloc, len)?;
    let span = len.checked_div(count).unwrap_or(0);
    for k in 0..count {
        let within = numbers.up_to(span.saturating_sub(deleted).saturating_sub(1));
        let start = k.saturating_mul(span).saturating_add(within);
        change.replace(start, start.saturating_add(deleted), text)?;
    }
    Ok(change)
}

/// Returns the ranges and texts of a change in one number.
fn sum_of_edits(change: &ChangeSet) -> u64 {
    let mut edits = change.edits();
    let mut sum = 0;
    while let Some(edit) = edits.next() {
        sum = mix(mix(mix(sum, edit.start), edit.end), edit.text.len());
    }
    sum
}

fn type_in_a_row<C: CpuClock>(clock: &C, sample: &Sample) -> Result<Outcome, Fault> {
    let mut rope = sample.fresh()?;
    type_into(clock, sample, &mut rope)
}

fn type_into<C: CpuClock>(clock: &C, sample: &Sample, rope: &mut Rope) -> Result<Outcome, Fault> {
    let operations = sample.operations(100_000);
    let middle = rope.len_chars() / 2;
    let start = now(clock);
    for k in 0..operations {
        let place = middle.saturating_add(k);
        let mut change = ChangeSet::new(sample.alloc, rope.len_chars())?;
        change.replace(place, place, "x")?;
        change.apply(rope)?;
    }
    let end = now(clock);
    Outcome::new(operations, start, end, whole(rope))
}

fn edit_in_rounds<C: CpuClock>(
    clock: &C,
    sample: &Sample,
    deleted: usize,
    text: &str,
) -> Result<Outcome, Fault> {
    let mut rope = sample.fresh()?;
    edit_repeatedly(clock, sample, &mut rope, deleted, text)
}

fn edit_repeatedly<C: CpuClock>(
    clock: &C,
    sample: &Sample,
    rope: &mut Rope,
    deleted: usize,
    text: &str,
) -> Result<Outcome, Fault> {
    let count = sample.operations(REPLACEMENTS);
    let mut numbers = Numbers::new();
    let start = now(clock);
    for _ in 0..ROUNDS {
        let len = rope.len_chars();
        change_of(sample.alloc, len, count, deleted, text, &mut numbers)?.apply(rope)?;
    }
    let end = now(clock);
    Outcome::new(count.saturating_mul(ROUNDS), start, end, whole(rope))
}

/// Returns the change of many words of the workloads below.
fn words(sample: &Sample, len: usize, numbers: &mut Numbers) -> Result<ChangeSet, Fault> {
    let count = sample.operations(REPLACEMENTS);
    change_of(sample.alloc, len, count, WORD, "other", numbers)
}

fn invert<C: CpuClock>(clock: &C, sample: &Sample) -> Result<Outcome, Fault> {
    let change = words(sample, sample.rope.len_chars(), &mut Numbers::new())?;
    invert_one(clock, sample, &change)
}

fn invert_one<C: CpuClock>(
    clock: &C,
    sample: &Sample,
    change: &ChangeSet,
) -> Result<Outcome, Fault> {
    let start = now(clock);
    let inverse = change.invert(&sample.rope)?;
    let end = now(clock);
    Outcome::new(
        sample.operations(REPLACEMENTS),
        start,
        end,
        sum_of_edits(&inverse),
    )
}

fn compose<C: CpuClock>(clock: &C, sample: &Sample) -> Result<Outcome, Fault> {
    let mut numbers = Numbers::new();
    let first = words(sample, sample.rope.len_chars(), &mut numbers)?;
    let second = words(sample, first.len_after(), &mut numbers)?;
    compose_two(clock, sample, &first, &second)
}

fn compose_two<C: CpuClock>(
    clock: &C,
    sample: &Sample,
    first: &ChangeSet,
    second: &ChangeSet,
) -> Result<Outcome, Fault> {
    let start = now(clock);
    let both = first.compose(second)?;
    let end = now(clock);
    Outcome::new(
        sample.operations(REPLACEMENTS),
        start,
        end,
        sum_of_edits(&both),
    )
}

/// Returns ten indices, in order, for each replacement of a change.
fn sorted_indices(sample: &Sample, len: usize) -> Result<Vec<usize>, Fault>
    ensures within { IfOk result (λ indices. All (λ i. i ≤ len) indices.items) }
{
    let count = sample.operations(10 * REPLACEMENTS);
    let span = len.checked_div(count).unwrap_or(0);
    let mut numbers = Numbers::new();
    let mut indices = Vec::new(sample.alloc);
    for k in 0..count {
        let index = k.saturating_mul(span).saturating_add(numbers.up_to(span));
        indices.push(index.min(len))?;
    }
    Ok(indices)
}

fn move_indices<C: CpuClock>(clock: &C, sample: &Sample) -> Result<Outcome, Fault> {
    let change = words(sample, sample.rope.len_chars(), &mut Numbers::new())?;
    let mut indices = sorted_indices(sample, change.len_before())?;
    let start = now(clock);
    change.map_sorted(indices.as_mut_slice(), Side::After);
    let end = now(clock);
    let mut checksum = 0;
    for index in &indices {
        checksum = mix(checksum, *index);
    }
    Outcome::new(indices.len(), start, end, checksum)
}
