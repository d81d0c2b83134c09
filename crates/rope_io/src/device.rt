//! Readers and writers that record their failures. No call takes memory of its own.
ghost use Rattle.std.specs.Prelude.{◌≡◌, ℕ, ◌<◌, ◌⊎◌, Bool, true, false, List, length, OnOk, OnErr, IfOk, Option, None, Some, refl};
ghost use Rattle.std.specs.Io.{ReadsAtMost, WritesAtMost};
ghost use Rattle.std.specs.Io.KnownBytes.{ReadConsumes, WriteAppends};
ghost use Rattle.rope_io.specs.declared.device.Failure.{Failure};
ghost use Rattle.rope_io.specs.Failing.{failure_of, write_failure, count_failure};
ghost use Rattle.rope_io.specs.Watching.{watched_inner, watched_failed, watched_failure, watched_failures, unmarked};

mod failure_log;

use failure_log::FailureLog;
use std::io::{self, Read, Write};

/// The failure of a read or a write.
#[derive(Clone, Copy, Debug)]
pub enum Failure {
    /// The call returned this error.
    Returned(io::Error),
    /// The call was given bytes to write, and took none.
    TookNone,
}

/// A device with a mark that records whether it has failed. Clauses also know the failure of its
/// last call, and the number of failed calls.
pub trait Mark {
    /// Whether the mark is set.
    ghost marked: { Self → Bool };

    /// The failure of the last read or write: the error that it returned, or that it took none of
    /// its bytes. `None` if it did not fail, or if nothing was read or written since the mark was
    /// last cleared.
    ghost failure: { Self → Option Failure };

    /// The number of failed reads and writes. It is never cleared, and stops at `u64::MAX`.
    ghost failures: { Self → ℕ };

    /// The device without its mark and without the last failure; the number of failures stays.
    ghost cleared: { Self → Self };

    /// Clears the mark, without a read or a write.
    fn clear(&mut self)
        ensures { self.new ≡ cleared self.old };

    /// Returns whether the mark is set.
    fn failed(&self) -> bool
        ensures { result ≡ marked self.now };

    ghost cleared_unmarked: { (s : Self) → marked (cleared s) ≡ false };

    ghost cleared_failure: { (s : Self) → failure (cleared s) ≡ None };

    ghost cleared_failures: { (s : Self) → failures (cleared s) ≡ failures s };
}

/// A reader that records its failures.
pub trait Source: Mark {
    /// The bytes that it will give from here on, if known.
    ghost remaining: { Self → Option (List ℕ) };

    /// Reads as `Read::read` does. Sets the mark exactly if it returns an error, else leaves it.
    fn take(&mut self, buf: &mut [u8]) -> io::Result<usize>
        ensures bound { ReadsAtMost result buf.new }
        ensures bytes { ReadConsumes (remaining self.old) (remaining self.new) result buf.new }
        ensures ok { OnOk result (Self.marked self.new ≡ Self.marked self.old) }
        ensures err { OnErr result (Self.marked self.new ≡ true) }
        ensures failure { Self.failure self.new ≡ failure_of result }
        ensures failures { Self.failures self.new
            ≡ count_failure (failure_of result) (Self.failures self.old) };

    ghost cleared_remaining: { (s : Self) → remaining (Self.cleared s) ≡ remaining s };
}

/// A writer that records its failures.
pub trait Sink: Mark {
    /// The bytes that it holds, if known.
    ghost contents: { Self → Option (List ℕ) };

    /// Writes as `Write::write` does. Sets the mark exactly if it returns an error, or takes none
    /// of the given bytes; else leaves it.
    fn give(&mut self, buf: &[u8]) -> io::Result<usize>
        ensures bound { WritesAtMost result buf.now }
        ensures bytes { WriteAppends (contents self.old) (contents self.new) result buf.now }
        ensures ok { IfOk result (λ n.
            (0 < n) ⊎ (length buf.now ≡ 0) → Self.marked self.new ≡ Self.marked self.old) }
        ensures none { IfOk result (λ n. n ≡ 0 → 0 < length buf.now → Self.marked self.new ≡ true) }
        ensures err { OnErr result (Self.marked self.new ≡ true) }
        ensures failure { Self.failure self.new ≡ write_failure result buf.now }
        ensures failures { Self.failures self.new
            ≡ count_failure (write_failure result buf.now) (Self.failures self.old) };

    ghost cleared_contents: { (s : Self) → contents (Self.cleared s) ≡ contents s };
}

/// A reader or a writer, whether it has failed, and its failures for clauses. It passes reads and
/// writes on.
#[derive(Drop)]
pub struct Watched<T> {
    inner: T,
    failed: bool,
    log: FailureLog,
}

impl<T> Watched<T> {
    /// Returns a device without the mark.
    pub fn new(inner: T) -> Watched<T>
        ensures inner { watched_inner result ≡ inner }
        ensures failed { watched_failed result ≡ false }
        ensures failure { watched_failure result ≡ None }
        ensures failures { watched_failures result ≡ 0 }
    {
        Watched {
            inner,
            failed: false,
            log: FailureLog::new(),
        }
    }

    /// Returns the device.
    pub fn into_inner(self) -> T
        ensures { result ≡ watched_inner self }
    {
        self.inner
    }

    // Records this failure.
    fn fail(&mut self, failure: Failure)
        ensures inner { watched_inner self.new ≡ watched_inner self.old }
        ensures failed { watched_failed self.new ≡ true }
        ensures failure { watched_failure self.new ≡ Some failure }
        ensures failures { watched_failures self.new
            ≡ count_failure (Some failure) (watched_failures self.old) }
    {
        self.failed = true;
        self.log.record(&Some(failure));
    }
}

impl<T> Mark for Watched<T> {
    ghost marked = { watched_failed };

    ghost failure = { watched_failure };

    ghost failures = { watched_failures };

    ghost cleared = { unmarked };

    ghost cleared_unmarked = { λ _. refl };

    ghost cleared_failure = { λ _. refl };

    ghost cleared_failures = { λ _. refl };

    fn clear(&mut self) {
        self.failed = false;
        self.log.record(&None);
    }

    fn failed(&self) -> bool {
        self.failed
    }
}

impl<T: Read> Source for Watched<T> {
    ghost remaining = { λ w. T.remaining (watched_inner w) };

    ghost cleared_remaining = { λ _. refl };

    fn take(&mut self, buf: &mut [u8]) -> io::Result<usize> {
        let taken = self.inner.read(buf);
        match &taken {
            Ok(_) => self.log.record(&None),
            Err(error) => self.fail(Failure::Returned(*error)),
        }
        taken
    }
}

impl<T: Write> Sink for Watched<T> {
    ghost contents = { λ w. T.contents (watched_inner w) };

    ghost cleared_contents = { λ _. refl };

    fn give(&mut self, buf: &[u8]) -> io::Result<usize> {
        let given = self.inner.write(buf);
        match &given {
            Ok(0) if !buf.is_empty() => self.fail(Failure::TookNone),
            Ok(_) => self.log.record(&None),
            Err(error) => self.fail(Failure::Returned(*error)),
        }
        given
    }
}
