//! Refuses allocations: runs every call that takes memory, checks the state after a failure, and
//! tries again. The gate runs it with none refused, and `scripts/refuse_each_allocation.sh` with
//! each in turn. Its output doesn't depend on the refused allocation, so that the runs can be
//! compared. No contract shows that a call succeeds in the end.
#![tactic(auto)]

mod changing;
mod edits;
mod making;
mod parts;
mod reading;
mod sessions;
mod texts;

use std::alloc::Global;
use std::io::Print;
use std::process::ExitCode;

/// The number of tries of a call: one allocation is refused, so the next try succeeds.
const TRIES: usize = 3;

/// Runs all calls, and counts the failures that changed something or were forgotten.
fn run(rt: &impl Print, alloc: Global, faults: &mut usize) -> bool {
    edits::run(rt, alloc, faults)
        && parts::run(rt, alloc, faults)
        && making::run(rt, alloc, faults)
        && texts::run(rt, alloc, faults)
        && changing::run(rt, alloc, faults)
        && reading::run(rt, alloc)
        && sessions::run(rt, alloc)
}

fn main(rt: HostRuntime) -> ExitCode {
    let mut faults = 0;
    if !run(&rt, rt.alloc(), &mut faults) {
        return ExitCode::from(2);
    }
    if faults > 0 {
        return ExitCode::from(1);
    }
    ExitCode::SUCCESS
}
