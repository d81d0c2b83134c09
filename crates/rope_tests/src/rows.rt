//! Where a test failed. The format is proved where it is written, so tests call this function.
use rope_plain::failure::{Failure, within};

/// Returns the outcome, with the seed and the round prepended to a failure.
pub fn at_round(seed: u64, round: usize, outcome: Result<(), Failure>) -> Result<(), Failure> {
    within(format_args!("seed {seed:#x}, round {round}"), outcome)
}
