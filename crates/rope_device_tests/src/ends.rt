//! The outcomes of runs, as their program reports them.
use rope_plain::failure::{Failure, expect_same, within};
use rope_plain::texts::expect_shown;
use rope_protocol::Ended;
use std::alloc::Global;

/// The outcome of a run, the program's status, and its line on standard error.
const TOLD: [(Ended, u8, &str); 6] = [
    (Ended::Done, 0, ""),
    (Ended::BadLine(1), 2, "bad line 1"),
    (Ended::BadLine(20), 2, "bad line 20"),
    (Ended::BadLine(u64::MAX), 2, "bad line 18446744073709551615"),
    (Ended::OutOfMemory, 3, "out of memory"),
    (Ended::Failed, 4, "input or output failed"),
];

/// Fails unless an outcome has this status, and this text.
fn expect_told(alloc: Global, ended: Ended, status: u8, wanted: &str) -> Result<(), Failure> {
    expect_shown(format!(in alloc; "{ended}"), wanted)?;
    expect_same("ended.status()", &ended.status(), &status)
}

#[test]
fn each_end_has_a_status_and_a_text(rt: HostRuntime) -> Result<(), Failure> {
    for (ended, status, text) in &TOLD {
        within(
            format_args!("{ended:?}"),
            expect_told(rt.alloc(), *ended, *status, text),
        )?;
    }
    Ok(())
}
