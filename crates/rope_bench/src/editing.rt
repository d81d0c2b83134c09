//! Edits of a rope that shares nothing with another.
use crate::edits::{
    append_all, insert_chars_at_random, insert_chars_in_a_row, insert_text_at_random,
    remove_at_random, remove_long_at_random, replace_at_random, split_at_random, split_near_middle,
    type_text,
};
use crate::fault::Fault;
use crate::measure::{Outcome, lens, now, whole};
use crate::sample::Sample;
use crate::scaling::Portion;
use crate::texts::first_lines;
use ropey::Rope;
use std::time::CpuClock;

/// The approximate number of bytes of a long text that is inserted or removed.
const LONG: usize = 10_000;

/// A text of two lines.
const TWO_LINES: &str = "hello\nworld ";

/// An edit.
#[derive(Clone, Copy)]
pub enum Edit {
    /// Inserts a character at random indices.
    InsertCharRandom,
    /// Inserts a character into the middle, and each next one after it.
    InsertCharCoherent,
    /// Inserts a text of two lines at random indices.
    InsertStrRandom,
    /// Inserts about ten thousand bytes at random indices.
    InsertLong,
    /// Removes one to ten characters at random indices.
    RemoveRandom,
    /// Removes three characters at random indices, and inserts others there.
    RemoveInsertRandom,
    /// Removes about ten thousand bytes at random indices.
    RemoveLong,
    /// Splits the rope near its middle, and joins its two halves again.
    SplitAndAppend,
    /// Splits the rope at random indices, and joins its two parts again.
    SplitAnywhere,
    /// Appends the text's first characters, one by one, to an empty rope.
    TypeFromEmpty,
    /// Inserts a text of two lines at random indices of a rope that starts empty.
    GrowFromEmpty,
    /// Re-chunks the rope.
    ShrinkToFit,
    /// Re-chunks the rope ten times over, which shares its nodes with the sample's.
    ShrinkToFitLong,
    /// Inserts a portion of a text at random indices.
    Insert(Portion),
    /// Removes a portion of the text at random indices.
    Remove(Portion),
}

impl Edit {
    /// Returns the name of the workload.
    pub fn name(self) -> &'static str {
        match self {
            Edit::InsertCharRandom => "insert_char_random",
            Edit::InsertCharCoherent => "insert_char_coherent",
            Edit::InsertStrRandom => "insert_str_random",
            Edit::InsertLong => "insert_10KB",
            Edit::RemoveRandom => "remove_random",
            Edit::RemoveInsertRandom => "remove_insert_random",
            Edit::RemoveLong => "remove_10KB",
            Edit::SplitAndAppend => "split_and_append",
            Edit::SplitAnywhere => "split_anywhere",
            Edit::TypeFromEmpty => "type_from_empty",
            Edit::GrowFromEmpty => "grow_from_empty",
            Edit::ShrinkToFit => "shrink_to_fit",
            Edit::ShrinkToFitLong => "shrink_to_fit_100MB",
            Edit::Insert(_) => "insert",
            Edit::Remove(_) => "remove",
        }
    }

    /// Returns the number of operations.
    fn operations(self, sample: &Sample) -> usize {
        match self {
            Edit::InsertCharRandom
            | Edit::InsertCharCoherent
            | Edit::InsertStrRandom
            | Edit::RemoveRandom
            | Edit::RemoveInsertRandom
            | Edit::TypeFromEmpty => sample.operations(100_000),
            Edit::GrowFromEmpty => sample.operations(200_000),
            Edit::InsertLong | Edit::SplitAndAppend | Edit::SplitAnywhere => {
                sample.operations(1_000)
            }
            Edit::RemoveLong => sample.operations(500),
            Edit::ShrinkToFit | Edit::ShrinkToFitLong => 1,
            Edit::Insert(portion) => portions_of(sample, portion).max(3),
            Edit::Remove(portion) => (portions_of(sample, portion) / 2).max(1),
        }
    }

    /// Returns the rope to edit.
    fn start(self, sample: &Sample) -> Result<Rope, Fault> {
        match self {
            Edit::TypeFromEmpty | Edit::GrowFromEmpty => Ok(Rope::new(sample.alloc)?),
            Edit::ShrinkToFitLong => ten_times(sample),
            _ => sample.fresh(),
        }
    }

    /// Returns the text to insert.
    fn piece(self, sample: &Sample) -> Result<String, Fault> {
        match self {
            Edit::InsertLong => first_lines(sample.alloc, sample.text.as_str(), LONG),
            Edit::Insert(portion) => portion.piece(sample.alloc, sample.text.len()),
            _ => Ok(String::from_str(sample.alloc, TWO_LINES)?),
        }
    }

    /// Runs the edit `count` times, with the text to insert.
    fn apply(
        self,
        rope: &mut Rope,
        sample: &Sample,
        piece: &str,
        count: usize,
    ) -> Result<(), Fault> {
        match self {
            Edit::InsertCharRandom => insert_chars_at_random(rope, count),
            Edit::InsertCharCoherent => insert_chars_in_a_row(rope, count),
            Edit::InsertStrRandom | Edit::InsertLong | Edit::GrowFromEmpty | Edit::Insert(_) => {
                insert_text_at_random(rope, piece, count)
            }
            Edit::RemoveRandom => remove_at_random(rope, count),
            Edit::RemoveInsertRandom => replace_at_random(rope, count),
            Edit::RemoveLong => remove_long_at_random(rope, sample.chars_of_bytes(LONG), count),
            Edit::Remove(portion) => {
                remove_long_at_random(rope, portion.bytes_of(sample.text.len()), count)
            }
            Edit::SplitAndAppend => split_near_middle(rope, count),
            Edit::SplitAnywhere => split_at_random(rope, count),
            Edit::TypeFromEmpty => type_text(rope, sample.text.as_str(), count),
            Edit::ShrinkToFit | Edit::ShrinkToFitLong => Ok(rope.shrink_to_fit()?),
        }
    }

    /// Returns the rope in one number: its lengths alone if it is very long.
    fn checksum(self, rope: &Rope) -> u64 {
        match self {
            Edit::ShrinkToFitLong => lens(rope),
            _ => whole(rope),
        }
    }
}

/// Runs many edits of one kind.
pub fn edit_rope<C: CpuClock>(clock: &C, sample: &Sample, what: Edit) -> Result<Outcome, Fault> {
    let piece = what.piece(sample)?;
    let mut rope = what.start(sample)?;
    edit_in(clock, &mut rope, sample, piece.as_str(), what)
}

fn edit_in<C: CpuClock>(
    clock: &C,
    rope: &mut Rope,
    sample: &Sample,
    piece: &str,
    what: Edit,
) -> Result<Outcome, Fault> {
    let operations = what.operations(sample);
    let start = now(clock);
    what.apply(rope, sample, piece, operations)?;
    let end = now(clock);
    Outcome::new(operations, start, end, what.checksum(rope))
}

/// Ropes of single lines that are appended to one rope.
#[derive(Clone, Copy)]
pub enum Append {
    /// To the sample's.
    ToRope,
    /// To an empty one.
    ToEmpty,
}

impl Append {
    /// Returns the name of the workload.
    pub fn name(self) -> &'static str {
        match self {
            Append::ToRope => "append_small",
            Append::ToEmpty => "append_small_from_empty",
        }
    }

    /// Returns the rope to append to.
    fn start(self, sample: &Sample) -> Result<Rope, Fault> {
        match self {
            Append::ToRope => sample.fresh(),
            Append::ToEmpty => Ok(Rope::new(sample.alloc)?),
        }
    }
}

/// Appends ropes of the first lines.
pub fn append_ropes<C: CpuClock>(
    clock: &C,
    sample: &Sample,
    what: Append,
) -> Result<Outcome, Fault> {
    let count = sample.operations(1_000);
    let others = ropes_of_lines(sample, count)?;
    let mut rope = what.start(sample)?;
    append_in(clock, &mut rope, others, count)
}

fn append_in<C: CpuClock>(
    clock: &C,
    rope: &mut Rope,
    others: Vec<Rope>,
    count: usize,
) -> Result<Outcome, Fault> {
    let start = now(clock);
    append_all(rope, others)?;
    let end = now(clock);
    Outcome::new(count, start, end, whole(rope))
}

/// Returns the number of portions of the text, at most 10,000.
fn portions_of(sample: &Sample, portion: Portion) -> usize {
    portion.count_in(sample.text.len(), sample.operations(10_000))
}

/// Returns the sample's rope ten times, in one rope that shares its nodes.
fn ten_times(sample: &Sample) -> Result<Rope, Fault> {
    let mut rope = sample.rope.clone()?;
    for _ in 1..10 {
        rope.append(sample.rope.clone()?)?;
    }
    Ok(rope)
}

/// Returns a rope of each of the first lines.
fn ropes_of_lines(sample: &Sample, count: usize) -> Result<Vec<Rope>, Fault> {
    let mut ropes = Vec::new(sample.alloc);
    push_ropes(&mut ropes, sample, count)?;
    Ok(ropes)
}

fn push_ropes(ropes: &mut Vec<Rope>, sample: &Sample, count: usize) -> Result<(), Fault> {
    for line in sample.text.as_str().split_inclusive('\n').take(count) {
        ropes.push(Rope::from_str(sample.alloc, line)?)?;
    }
    Ok(())
}
