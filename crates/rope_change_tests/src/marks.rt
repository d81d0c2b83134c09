//! Random marks of a text, against a plain list of ranges.
use crate::makers::refused;
use rope_changes::{ChangeSet, Side};
use rope_history::{Mark, Marks};
use rope_plain::failure::{Failure, expect_same, within};
use rope_plain::numbers::Numbers;
use rope_plain::sums::{minus, plus};
use rope_plain::texts::repeated;
use rope_plain::{holds, same};
use std::alloc::{AllocError, Global};
use std::process::Abort;

/// The number of steps from one seed.
const STEPS: usize = 150;

/// A range that is replaced by a text of `new` characters.
#[derive(Clone, Copy, Debug)]
struct Cut {
    start: usize,
    end: usize,
    new: usize,
}

/// The last step.
#[derive(Clone, Copy, Debug)]
enum Step {
    Add,
    Remove(usize),
    Change([Cut; 3]),
    Within(usize, usize),
}

/// Marks in the order in which they were added, the number of the next one, and the length of the
/// text.
#[derive(Drop)]
struct Plain {
    marks: Vec<Mark>,
    next_id: usize,
    len: usize,
}

fn random_side(numbers: &mut Numbers) -> Side {
    if numbers.take() % 2 == 0 {
        Side::Before
    } else {
        Side::After
    }
}

/// Returns the index after cuts that are ordered and disjoint.
fn moved(index: usize, side: Side, cuts: &[Cut]) -> usize {
    let mut added: usize = 0;
    let mut removed: usize = 0;
    let mut at = index;
    for cut in cuts {
        if cut.start < index && cut.end <= index {
            added = plus(added, cut.new);
            removed = plus(removed, minus(cut.end, cut.start));
        } else if cut.start < index {
            at = plus(cut.start, cut.new);
        } else if cut.start == index && side == Side::After {
            at = plus(index, cut.new);
        }
    }
    minus(plus(at, added), removed)
}

fn moved_mark(mark: Mark, cuts: &[Cut]) -> Mark {
    let start = moved(mark.start, mark.start_side, cuts);
    Mark {
        id: mark.id,
        start,
        end: moved(mark.end, mark.end_side, cuts).max(start),
        start_side: mark.start_side,
        end_side: mark.end_side,
    }
}

impl Plain {
    fn find(&self, id: usize) -> Option<Mark> {
        self.marks.iter().copied().find(|mark| mark.id == id)
    }

    fn add(&mut self, mark: Mark) -> Result<(), AllocError> {
        self.marks.push(mark)?;
        self.next_id = plus(self.next_id, 1);
        Ok(())
    }

    fn remove(&mut self, id: usize) -> Option<Mark> {
        let index = self.marks.iter().position(|mark| mark.id == id)?;
        if index < self.marks.len() {
            return Some(self.marks.remove(index));
        }
        None
    }

    fn apply(&mut self, cuts: &[Cut]) {
        for mark in self.marks.iter_mut() {
            *mark = moved_mark(*mark, cuts);
        }
        for cut in cuts {
            let deleted = minus(cut.end, cut.start);
            self.len = minus(plus(self.len, cut.new), deleted);
        }
    }
}

/// Cuts of a text of `len` characters, each after the one before it.
fn random_cuts(numbers: &mut Numbers, len: usize) -> [Cut; 3] {
    let none = Cut {
        start: len,
        end: len,
        new: 0,
    };
    let mut cuts = [none; 3];
    let mut at: usize = 0;
    for cut in cuts.iter_mut() {
        let start = plus(numbers.up_to(12), at);
        if start < len {
            let end = plus(start, numbers.up_to(7)).min(len);
            let new = numbers.up_to(7);
            *cut = Cut { start, end, new };
            at = plus(end, 1);
        }
    }
    cuts
}

/// Replaces a range by a text of its length.
fn replace(rt: &impl Abort, alloc: Global, change: &mut ChangeSet, cut: Cut) {
    let text = repeated(alloc, "é", cut.new).expect(rt, "there is memory");
    change
        .replace(cut.start, cut.end, text.as_str())
        .expect(rt, "the range is in order");
}

fn change_of(rt: &impl Abort, alloc: Global, len: usize, cuts: &[Cut]) -> ChangeSet {
    let mut change = ChangeSet::new(alloc, len).expect(rt, "the text fits");
    for cut in cuts {
        replace(rt, alloc, &mut change, *cut);
    }
    change
}

/// Adds a random mark to both.
fn add(numbers: &mut Numbers, marks: &mut Marks, plain: &mut Plain) -> Result<Step, Failure> {
    let start = numbers.up_to(plain.len);
    let end = plus(start, numbers.up_to(9)).min(plain.len);
    let (start_side, end_side) = (random_side(numbers), random_side(numbers));
    let id = marks
        .add(start, end, start_side, end_side)
        .map_err(refused)?;
    same!(id, plain.next_id);
    plain.add(Mark {
        id,
        start,
        end,
        start_side,
        end_side,
    })?;
    Ok(Step::Add)
}

/// Fails unless the cursor returns the marks that touch a range, in order of their starts.
fn expect_within(marks: &Marks, plain: &Plain, start: usize, end: usize) -> Result<(), Failure> {
    let mut touching = marks.within(start, end);
    let mut count: usize = 0;
    let mut last = 0;
    for _ in 0..plain.marks.len() {
        let Some(mark) = touching.next() else {
            break;
        };
        same!(Some(mark), plain.find(mark.id));
        holds!(mark.start <= end && start <= mark.end);
        holds!(last <= mark.start);
        last = mark.start;
        count = plus(count, 1);
    }
    holds!(touching.next().is_none());
    let wanted = plain
        .marks
        .iter()
        .filter(|mark| mark.start <= end && start <= mark.end)
        .count();
    same!(count, wanted);
    Ok(())
}

/// Moves the marks of both by random cuts.
fn apply(
    rt: &impl Abort,
    alloc: Global,
    numbers: &mut Numbers,
    marks: &mut Marks,
    plain: &mut Plain,
) -> Step {
    let cuts = random_cuts(numbers, plain.len);
    let change = change_of(rt, alloc, plain.len, &cuts);
    marks.apply(&change).expect(rt, "the lengths agree");
    plain.apply(&cuts);
    Step::Change(cuts)
}

/// Makes a random step with both.
fn take_step(
    rt: &impl Abort,
    alloc: Global,
    numbers: &mut Numbers,
    marks: &mut Marks,
    plain: &mut Plain,
) -> Result<Step, Failure> {
    match numbers.take() % 8 {
        0..=2 => add(numbers, marks, plain),
        3 => {
            let id = numbers.up_to(plain.next_id);
            same!(marks.remove(id), plain.remove(id));
            Ok(Step::Remove(id))
        }
        4..=6 => Ok(apply(rt, alloc, numbers, marks, plain)),
        _ => {
            let start = numbers.up_to(plain.len);
            let end = plus(start, numbers.up_to(20));
            expect_within(marks, plain, start, end)?;
            Ok(Step::Within(start, end))
        }
    }
}

/// Fails unless each mark that was added equals the plain one.
fn expect_marks(marks: &Marks, plain: &Plain) -> Result<(), Failure> {
    same!(marks.len(), plain.marks.len());
    same!(marks.len_chars(), plain.len);
    for id in 0..plain.next_id {
        within(
            format_args!("mark {id}"),
            expect_same("it", &marks.get(id), &plain.find(id)),
        )?;
    }
    Ok(())
}

/// Fails unless the marks are the plain ones after a random step.
fn expect_step(
    rt: &impl Abort,
    alloc: Global,
    numbers: &mut Numbers,
    marks: &mut Marks,
    plain: &mut Plain,
) -> Result<(), Failure> {
    let done = take_step(rt, alloc, numbers, marks, plain)?;
    within(format_args!("{done:?}"), expect_marks(marks, plain))
}

fn expect_steps_of(
    rt: &impl Abort,
    alloc: Global,
    numbers: &mut Numbers,
    marks: &mut Marks,
    plain: &mut Plain,
) -> Result<(), Failure> {
    for k in 0..STEPS {
        within(
            format_args!("step {k}"),
            expect_step(rt, alloc, numbers, marks, plain),
        )?;
    }
    Ok(())
}

fn expect_steps(rt: &impl Abort, alloc: Global, seed: u64) -> Result<(), Failure> {
    let mut numbers = Numbers::new(seed);
    let len = numbers.up_to(60);
    let mut marks = Marks::new(alloc, len);
    let mut plain = Plain {
        marks: Vec::new(alloc),
        next_id: 0,
        len,
    };
    expect_steps_of(rt, alloc, &mut numbers, &mut marks, &mut plain)
}

#[test]
fn random_marks_are_those_of_a_plain_list(rt: HostRuntime) -> Result<(), Failure> {
    for seed in 1..=6 {
        within(
            format_args!("seed {seed}"),
            expect_steps(&rt, rt.alloc(), seed),
        )?;
    }
    Ok(())
}
