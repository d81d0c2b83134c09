//! Where a test failed. Each format is proved where it is written, so tests call these.
use rope_plain::compare::SETS;
use rope_plain::failure::{Failure, within};

/// Returns the outcome, with the seed, the round and the set of line breaks prepended to a failure.
/// A round has a turn for each set.
pub fn at_turn(seed: u64, turn: usize, outcome: Result<(), Failure>) -> Result<(), Failure> {
    let round = turn / 3;
    let breaks = SETS[turn % 3];
    within(
        format_args!("seed {seed:#x}, round {round}, line breaks {breaks:?}"),
        outcome,
    )
}
