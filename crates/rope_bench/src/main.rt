//! Times the public calls of ropes, of each kind: on three texts of ten million bytes, on a rope
//! fragmented by many edits, on a person's own edits, and on texts that grow.
//!
//! The Rust program in the folder `benchmarks/ropey` does the same work with the Rust crate ropey
//! 1.6.1. The two have equal checksums, in small and in full: so an independent program confirms
//! the output that this crate's `stdout` expects and the gate compares.
#![tactic(auto)]

mod changing;
mod comparing;
mod counting;
mod cursors;
mod editing;
mod edits;
mod fault;
mod growing;
mod keeping;
mod lookups;
mod making;
mod measure;
mod numbers;
mod reading;
mod report;
mod sample;
mod scaling;
mod screens;
mod slicing;
mod task;
mod texts;
mod traces;
mod workloads;

use fault::Fault;
use std::env;
use std::rt::Env;
use task::{Mode, Task};

/// Returns the task of the command line: a mode, and words that select workloads.
fn task_of<R: Env + AllocGlobal>(rt: &R) -> Result<Task, Fault> {
    let mut arguments = env::args(rt)?.skip(1);
    let mode = match arguments.next() {
        None => Mode::Small,
        Some(word) => Mode::of_word(word.as_str())?,
    };
    let words = arguments.collect(rt.alloc())?;
    Ok(Task { mode, words })
}

fn main(rt: HostRuntime) -> Result<(), Fault> {
    let task = task_of(&rt)?;
    report::run(&rt, rt.alloc(), &task)
}
