//! Runs the selected workloads, and prints a line for each.
use crate::editing::Edit;
use crate::fault::Fault;
use crate::growing::{LENGTHS, MEMORIES, Memory, fill};
use crate::measure::Outcome;
use crate::sample::{Sample, Size, State};
use crate::scaling::{BYTES, LINE_LENGTHS, LineLength, PORTIONS, START};
use crate::task::{Mode, Task};
use crate::texts::{TEXTS, Text};
use crate::traces::{Keystroke, keystrokes, replay};
use crate::workloads::{OF_EDITED, OF_LENGTHS, OF_LINE_LENGTHS, OF_NONE, OF_TEXTS, Workload};
use std::alloc::Global;
use std::time::CpuClock;

/// The number of times that a workload is timed; the least time counts.
const RUNS: usize = 5;

/// The name of the workload of a person's edits.
const TRACE: &str = "trace";

/// Runs the task.
pub fn run<R: CpuClock + Print + Input + AllocGlobal>(
    rt: &R,
    alloc: Global,
    task: &Task,
) -> Result<(), Fault> {
    match task.mode {
        Mode::Small | Mode::Full => run_all(rt, alloc, task),
        Mode::Growth => run_lengths(rt, alloc, task),
        Mode::Memory => run_memories(rt, alloc, task),
    }
}

/// Runs the workloads on each text, on fragmented ropes, without a text, by length of lines and of
/// edits, and on a person's edits.
fn run_all<R: CpuClock + Print + Input + AllocGlobal>(
    rt: &R,
    alloc: Global,
    task: &Task,
) -> Result<(), Fault> {
    warm_up(alloc, task)?;
    for text in &TEXTS {
        run_on_text(rt, alloc, task, *text, State::New)?;
        run_on_text(rt, alloc, task, *text, State::Edited)?;
    }
    run_on_none(rt, alloc, task)?;
    run_line_lengths(rt, alloc, task)?;
    run_portions(rt, alloc, task)?;
    run_trace(rt, alloc, task)
}

/// Makes a text and drops it. The allocator keeps as much memory when a rope is dropped as the last
/// text dropped had, which decides the cost of a rope: it must be equal for all workloads.
fn warm_up(alloc: Global, task: &Task) -> Result<(), Fault> {
    let _ = Text::Prose.make(alloc, task.size().bytes())?;
    Ok(())
}

/// Workloads, with the beginning and the end of their names.
#[derive(Clone, Copy)]
struct Round<'a> {
    start: &'a str,
    workloads: &'a [Workload],
    ending: &'a str,
}

impl Round<'_> {
    fn name_of(&self, alloc: Global, workload: Workload) -> Result<String, Fault> {
        let start = self.start;
        let plain = workload.name();
        let ending = self.ending;
        Ok(format!(in alloc; "{start}{plain}{ending}")?)
    }

    /// Returns whether any of them is selected.
    fn is_wanted(&self, alloc: Global, task: &Task) -> Result<bool, Fault> {
        for workload in self.workloads {
            let name = self.name_of(alloc, *workload)?;
            if task.wants(name.as_str()) {
                return Ok(true);
            }
        }
        Ok(false)
    }

    /// Runs the selected ones on one sample.
    fn run<R: CpuClock + Print>(&self, rt: &R, task: &Task, sample: &Sample) -> Result<(), Fault> {
        for workload in self.workloads {
            let name = self.name_of(sample.alloc, *workload)?;
            run_one(rt, task, sample, *workload, name.as_str())?;
        }
        Ok(())
    }
}

/// Runs the workload of this name, if it is selected.
fn run_one<R: CpuClock + Print>(
    rt: &R,
    task: &Task,
    sample: &Sample,
    workload: Workload,
    name: &str,
) -> Result<(), Fault> {
    if task.wants(name) {
        let best = workload.best_of(rt, sample, runs(task))?;
        show(rt, task, name, best)?;
    }
    Ok(())
}

fn runs(task: &Task) -> usize {
    match task.mode {
        Mode::Full | Mode::Growth => RUNS,
        Mode::Small | Mode::Memory => 1,
    }
}

/// Runs the workloads of texts on one of them, which is dropped.
fn run_on_text<R: CpuClock + Print>(
    rt: &R,
    alloc: Global,
    task: &Task,
    text: Text,
    state: State,
) -> Result<(), Fault> {
    let round = Round {
        start: state.start(),
        workloads: match state {
            State::New => &OF_TEXTS,
            State::Edited => &OF_EDITED,
        },
        ending: text.ending(),
    };
    if !round.is_wanted(alloc, task)? {
        return Ok(());
    }
    let text = text.make(alloc, task.size().bytes())?;
    let sample = Sample::new(alloc, text, task.size(), state)?;
    round.run(rt, task, &sample)
}

fn run_on_none<R: CpuClock + Print>(rt: &R, alloc: Global, task: &Task) -> Result<(), Fault> {
    let round = Round {
        start: "",
        workloads: &OF_NONE,
        ending: "",
    };
    let sample = Sample::new(alloc, String::new(alloc), task.size(), State::New)?;
    round.run(rt, task, &sample)
}

/// Runs the workloads of each length of lines.
fn run_line_lengths<R: CpuClock + Print>(rt: &R, alloc: Global, task: &Task) -> Result<(), Fault> {
    for length in &LINE_LENGTHS {
        let round = Round {
            start: START,
            workloads: &OF_LINE_LENGTHS,
            ending: length.ending(),
        };
        run_scaled(rt, alloc, task, &round, *length)?;
    }
    Ok(())
}

/// Runs the edits of each portion, in lines of 80 characters.
fn run_portions<R: CpuClock + Print>(rt: &R, alloc: Global, task: &Task) -> Result<(), Fault> {
    for portion in &PORTIONS {
        let round = Round {
            start: START,
            workloads: &[
                Workload::Edit(Edit::Insert(*portion)),
                Workload::Edit(Edit::Remove(*portion)),
            ],
            ending: portion.ending(),
        };
        run_scaled(rt, alloc, task, &round, LineLength::Eighty)?;
    }
    Ok(())
}

/// Runs the selected workloads on lines of this length.
fn run_scaled<R: CpuClock + Print>(
    rt: &R,
    alloc: Global,
    task: &Task,
    round: &Round<'_>,
    length: LineLength,
) -> Result<(), Fault> {
    if !round.is_wanted(alloc, task)? {
        return Ok(());
    }
    let text = length.text(alloc, task.size().of(BYTES))?;
    let sample = Sample::new(alloc, text, task.size(), State::New)?;
    round.run(rt, task, &sample)
}

/// Runs the edits on standard input, which is read only if they are selected.
fn run_trace<R: CpuClock + Print + Input + AllocGlobal>(
    rt: &R,
    alloc: Global,
    task: &Task,
) -> Result<(), Fault> {
    if !task.wants(TRACE) {
        return Ok(());
    }
    let edits = keystrokes(rt)?;
    if edits.is_empty() {
        return Ok(());
    }
    let best = best_replay(rt, alloc, edits.as_slice(), runs(task))?;
    show(rt, task, TRACE, best)
}

/// Returns the fastest of `runs` replays, at least one.
fn best_replay<C: CpuClock>(
    clock: &C,
    alloc: Global,
    edits: &[Keystroke],
    runs: usize,
) -> Result<Outcome, Fault> {
    let mut best = replay(clock, alloc, edits)?;
    for _ in 1..runs {
        let next = replay(clock, alloc, edits)?;
        best.nanos = best.nanos.min(next.nanos);
    }
    Ok(best)
}

/// Runs a few workloads on prose of each length.
fn run_lengths<R: CpuClock + Print>(rt: &R, alloc: Global, task: &Task) -> Result<(), Fault> {
    for length in &LENGTHS {
        let round = Round {
            start: "",
            workloads: &OF_LENGTHS,
            ending: length.ending(),
        };
        if round.is_wanted(alloc, task)? {
            let sample = Sample::new(alloc, length.text(alloc)?, Size::Full, State::New)?;
            round.run(rt, task, &sample)?;
        }
    }
    Ok(())
}

/// Makes the selected ropes to measure their memory.
fn run_memories<R: CpuClock + Print>(rt: &R, alloc: Global, task: &Task) -> Result<(), Fault> {
    for memory in &MEMORIES {
        if task.wants(memory.name()) {
            let outcome = fill(rt, alloc, *memory)?;
            show(rt, task, memory.name(), outcome)?;
        }
    }
    Ok(())
}

/// Prints name, operations, nanoseconds per operation if they are timed, and checksum.
fn show<R: Print>(rt: &R, task: &Task, name: &str, outcome: Outcome) -> Result<(), Fault> {
    let operations = outcome.operations;
    let checksum = outcome.checksum;
    match task.mode {
        Mode::Small => println!(rt; "{name} {operations} {checksum:016x}")?,
        Mode::Full | Mode::Growth | Mode::Memory => {
            let count = operations as u64;
            let thousandths = outcome
                .nanos
                .saturating_mul(1_000)
                .checked_div(count)
                .unwrap_or(0);
            let whole = thousandths / 1_000;
            let part = thousandths % 1_000;
            println!(rt; "{name} {operations} {whole}.{part:03} {checksum:016x}")?;
        }
    }
    Ok(())
}
