//! The reason why a test failed, in one line: where, the call, the result and the expected result.
use ropey::Error;
use ropey::io::ReadError;
use std::alloc::{AllocError, AllocFailed};
use std::fmt::{self, Debug, Display, Formatter, InlineText, Write};
use std::io;

/// The maximum number of bytes of a line; a longer one is cut.
const MAX_LINE: usize = 480;

/// The reason why a test failed, in one line.
#[derive(Drop)]
pub struct Failure {
    line: InlineText<{ MAX_LINE }>,
}

impl Failure {
    /// Returns a failure with this reason.
    pub fn new<D: Display + Drop>(reason: D) -> Failure {
        Failure {
            line: InlineText::new().and(reason, MAX_LINE),
        }
    }

    /// Prepends the context of a failure: a set of line breaks, a round, a seed, a command.
    pub fn within<D: Display + Drop>(self, place: D) -> Failure {
        Failure::new(format_args!("{place}: {}", self.line.as_str()))
    }
}

impl Debug for Failure {
    fn fmt<W: Write>(&self, f: &mut Formatter<W>) -> fmt::Result {
        f.write_str(self.line.as_str())
    }
}

impl From<Error> for Failure {
    fn from(error: Error) -> Failure {
        Failure::new(format_args!("refused by {error:?}"))
    }
}

impl From<AllocError> for Failure {
    fn from(error: AllocError) -> Failure {
        Failure::new(format_args!("refused by {error:?}"))
    }
}

impl<T: Drop> From<AllocFailed<T>> for Failure {
    fn from(error: AllocFailed<T>) -> Failure {
        AllocError::from(error).into()
    }
}

impl From<io::Error> for Failure {
    fn from(error: io::Error) -> Failure {
        Failure::new(format_args!("refused by {error:?}"))
    }
}

impl From<ReadError> for Failure {
    fn from(error: ReadError) -> Failure {
        Failure::new(format_args!("refused by {error:?}"))
    }
}

/// Returns the outcome, with the context prepended to a failure.
pub fn within<D: Display + Drop>(place: D, outcome: Result<(), Failure>) -> Result<(), Failure> {
    match outcome {
        Ok(()) => Ok(()),
        Err(failure) => Err(failure.within(place)),
    }
}

/// Returns the outcome, with the name of a row and its number prepended to a failure. Each format
/// is proved where it is written, so tests call this one.
pub fn at(name: &str, number: usize, outcome: Result<(), Failure>) -> Result<(), Failure> {
    within(format_args!("{name} {number}"), outcome)
}

/// Fails unless `found` is `wanted`; `what` names the call.
pub fn expect_same<T: PartialEq + Debug>(what: &str, found: &T, wanted: &T) -> Result<(), Failure> {
    if *found == *wanted {
        return Ok(());
    }
    Err(Failure::new(format_args!("{what} is {found:?}, not {wanted:?}")))
}

/// Returns a failure from the enclosing function unless the result is the expected one. It is an
/// `if let`, which is proved sooner than a `?`. Code after it doesn't know that the values are
/// equal; where a call needs that, write `holds!(a == b)`.
#[macro_export]
macro_rules! same {
    ($found:expr, $wanted:expr $(,)?) => {
        if let Err(failure) =
            $crate::failure::expect_same(stringify!($found), &$found, &$wanted)
        {
            return Err(failure);
        }
    };
}

/// Returns a failure from the enclosing function unless a condition holds.
#[macro_export]
macro_rules! holds {
    ($condition:expr $(,)?) => {
        if !$condition {
            return Err($crate::failure::Failure::new(concat!(
                "false: ",
                stringify!($condition)
            )));
        }
    };
}

/// The value of an option; returns a failure from the enclosing function if there is none.
#[macro_export]
macro_rules! some {
    ($option:expr $(,)?) => {
        match $option {
            Some(value) => value,
            None => {
                return Err($crate::failure::Failure::new(concat!(
                    "none: ",
                    stringify!($option)
                )));
            }
        }
    };
}
