//! Lines that are served, and their expected output.
use crate::talks::{Dripping, Narrow};
use rope_plain::failure::Failure;
use rope_plain::same;
use rope_protocol::{Ended, serve};
use std::alloc::Global;

/// Fails unless the run over an input in reads of a number of bytes has this outcome, and this was
/// written and flushed.
pub fn expect_served(
    alloc: Global,
    input: &[u8],
    step: usize,
    ended: Ended,
    output: &str,
) -> Result<(), Failure> {
    let mut reader = Dripping { rest: input, step };
    let mut writer = Narrow::new(alloc, 100_000);
    same!(serve(alloc, &mut reader, &mut writer), ended);
    writer.expect_flushed(output)
}
