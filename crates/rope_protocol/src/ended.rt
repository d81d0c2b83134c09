//! The outcome of a run over lines: the program's exit status, and a text.
//!
//! `Ended::BadLine(2)` prints `bad line 2`, and its status is 2.
ghost use Rattle.std.specs.Prelude.{◌≡◌, ℕ, Some};
ghost use Rattle.rope_protocol.specs.EndedText.{ended_text};

use std::fmt;

/// The outcome of a run over lines.
///
/// `Display` prints the error, and nothing if the input ended.
#[derive(Clone, Copy, Debug, PartialEq, Eq)]
pub enum Ended {
    /// The input ended.
    Done,
    /// The line with this number, from 1, is not a command.
    BadLine(u64),
    /// An allocation failed for a line, a command or a reply.
    OutOfMemory,
    /// A read or a write failed.
    Failed,
}

impl Ended {
    /// Returns the exit status of a program with this outcome.
    pub fn status(self) -> u8
        ensures done { self ≡ Ended.Done → result ≡ 0 }
        ensures bad_line { (number : ℕ) → self ≡ Ended.BadLine number → result ≡ 2 }
        ensures out_of_memory { self ≡ Ended.OutOfMemory → result ≡ 3 }
        ensures failed { self ≡ Ended.Failed → result ≡ 4 }
    {
        match self {
            Ended::Done => 0,
            Ended::BadLine(_) => 2,
            Ended::OutOfMemory => 3,
            Ended::Failed => 4,
        }
    }
}

impl fmt::Display for Ended {
    ghost output = { λ ended. Some (ended_text ended) };

    fn fmt<W: fmt::Write>(&self, f: &mut fmt::Formatter<W>) -> fmt::Result {
        match *self {
            Ended::Done => Ok(()),
            Ended::BadLine(number) => write!(f, "bad line {number}"),
            Ended::OutOfMemory => write!(f, "out of memory"),
            Ended::Failed => write!(f, "input or output failed"),
        }
    }
}
