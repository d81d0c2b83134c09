//! A source whose first bytes were looked at.
ghost use Rattle.std.specs.Prelude.{◌≡◌, ◌≤◌, true, None, refl, drop, OnErr, OnOk, if◌then◌else◌};
ghost use Rattle.std.specs.Io.KnownBytes.{prepend_known};
ghost use Rattle.rope_io.specs.Failing.{failure_of, count_failure};
ghost use Rattle.std.proofs.Common.{ap};

use ropey::io::{Mark, Source};
use std::io;

/// The most bytes of a mark.
pub(crate) const HEAD_BYTES: usize = 3;

/// The first bytes of a source: three of them, or all that it gave up to its end.
#[derive(Clone, Copy)]
pub(crate) struct Head {
    bytes: [u8; HEAD_BYTES],
    len: usize,
    ghost within: { len ≤ 3 },
}

impl Head {
    ghost use Rattle.rope_files.specs.Heads.{head_bytes, ReadsHead};

    /// Reads the first bytes of a source.
    pub(crate) fn read<S: Source>(source: &mut S) -> io::Result<Head>
        ensures answer { ReadsHead (S.remaining source.old) (S.remaining source.new) result }
        ensures ok { OnOk result (S.marked source.new ≡ S.marked source.old) }
        ensures err { OnErr result (S.marked source.new ≡ true) }
        ensures failure { S.failure source.new ≡ failure_of result }
        ensures failures { S.failures source.new
            ≡ count_failure (failure_of result) (S.failures source.old) }
    {
        let mut bytes = [0; HEAD_BYTES];
        let mut len = 0;
        loop {
            let count = source.take(&mut bytes[len..])?;
            len += count;
            if count == 0 || len == HEAD_BYTES {
                return Ok(Head { bytes, len });
            }
        }
    }

    /// Returns the bytes.
    pub(crate) fn as_slice(&self) -> &[u8]
        ensures { result.now ≡ head_bytes self.now }
    {
        &self.bytes[..self.len]
    }
}

/// A source, and those of its first bytes that are to be given once more.
pub(crate) struct Ahead<S> {
    source: S,
    head: Head,
    at: usize,
    // Whether the last read gave some of the first bytes.
    is_quiet: bool,
}

impl<S: Source> Ahead<S> {
    ghost use Rattle.rope_files.specs.Heads.{head_bytes, held_bytes, source_of};

    /// Makes a source that gives the bytes of `head` from `at` on, and then those of `source`.
    pub(crate) fn new(source: S, head: Head, at: usize) -> Ahead<S>
        ensures source { source_of result ≡ source }
        ensures held { held_bytes result ≡ drop at (head_bytes head) }
    {
        Ahead {
            source,
            head,
            at,
            is_quiet: true,
        }
    }

    /// Returns the source.
    pub(crate) fn into_source(self) -> S
        ensures { result ≡ source_of self }
    {
        let Ahead {
            source,
            head: _head,
            at: _at,
            is_quiet: _is_quiet,
        } = self;
        source
    }
}

impl<S: Source> Mark for Ahead<S> {
    ghost marked = { λ a. S.marked a.source };

    ghost failure = { λ a. if a.is_quiet then None else S.failure a.source };

    ghost failures = { λ a. S.failures a.source };

    ghost cleared = { λ a.
        record { source = S.cleared a.source; head = a.head; at = a.at; is_quiet = true } };

    ghost cleared_unmarked = { λ a. S.cleared_unmarked a.source };

    ghost cleared_failure = { λ _. refl };

    ghost cleared_failures = { λ a. S.cleared_failures a.source };

    fn clear(&mut self) {
        self.source.clear();
        self.is_quiet = true;
    }

    fn failed(&self) -> bool {
        self.source.failed()
    }
}

impl<S: Source> Source for Ahead<S> {
    ghost use Rattle.rope_files.specs.Heads.{held_bytes};

    ghost remaining = { λ a. prepend_known (held_bytes a) (S.remaining a.source) };

    ghost cleared_remaining = { λ a.
        ap (prepend_known (held_bytes a)) (S.cleared_remaining a.source) };

    fn take(&mut self, buf: &mut [u8]) -> io::Result<usize> {
        let head = self.head.as_slice();
        if self.at < head.len() {
            let held = &head[self.at..];
            let count = held.len().min(buf.len());
            buf[..count].copy_from_slice(&held[..count]);
            self.at += count;
            self.is_quiet = true;
            return Ok(count);
        }
        self.is_quiet = false;
        self.source.take(buf)
    }
}
