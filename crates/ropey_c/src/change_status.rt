//! The statuses of errors of changes, and the numbers of sides.
ghost use Rattle.std.specs.Prelude.{◌≡◌, ◌<◌, IsOk, MatchResult};
ghost use Rattle.ropey_c.specs.ChangeStatus.{status_of_change, given_side};

use crate::status::{
    AFTER, BEFORE, CHAR_RANGE_INVALID, CHAR_RANGE_OUT_OF_BOUNDS, CHAR_RANGE_OUT_OF_ORDER,
    LENGTHS_DIFFER, OK, OUT_OF_MEMORY, TOO_LONG,
};
use rope_changes::{ChangeError, Side};

// The status of an error of a change.
pub(crate) fn status_of_change(error: ChangeError) -> u32
    ensures value { result ≡ status_of_change error }
    ensures refused { 0 < result }
{
    match error {
        ChangeError::RangeInvalid(_, _) => CHAR_RANGE_INVALID,
        ChangeError::RangeOutOfBounds(_, _) => CHAR_RANGE_OUT_OF_BOUNDS,
        ChangeError::OutOfOrder(_, _) => CHAR_RANGE_OUT_OF_ORDER,
        ChangeError::LengthDiffers(_, _) => LENGTHS_DIFFER,
        ChangeError::TooLong => TOO_LONG,
        ChangeError::OutOfMemory => OUT_OF_MEMORY,
    }
}

// The status of a result of a change.
pub(crate) fn change_status(returned: Result<(), ChangeError>) -> u32
    ensures answer { MatchResult returned (λ _. result ≡ OK) (λ e. result ≡ status_of_change e) }
    ensures ok { IsOk returned → result ≡ OK }
{
    match returned {
        Ok(()) => OK,
        Err(error) => status_of_change(error),
    }
}

// The side that a number stands for.
pub(crate) fn given_side(number: u32) -> Option<Side>
    ensures { result ≡ given_side number }
{
    match number {
        BEFORE => Some(Side::Before),
        AFTER => Some(Side::After),
        _ => None,
    }
}
