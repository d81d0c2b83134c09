//! Readers and writers that move at most a given number of bytes at once, and fail on request.
ghost use Rattle.std.specs.Prelude.{◌≡◌, IfOk};

use std::alloc::Global;
use std::cell::Cell;
use std::io::{self, ErrorKind, Read, Write};

/// Never: no device gives or takes that many bytes.
pub const NEVER: usize = usize::MAX;

/// One byte a read.
pub const SINGLY: u64 = u64::MAX;

/// Gives its bytes in several reads, and fails after a number of bytes.
///
/// A bit of `ends` that is set makes that byte the last of its read; the bytes past the 64th come
/// one a read.
#[derive(Drop)]
pub struct Parts<'a> {
    rest: &'a [u8],
    ends: u64,
    given: usize,
    fails_at: usize,
}

impl<'a> Parts<'a> {
    pub fn new(bytes: &'a [u8], ends: u64, fails_at: usize) -> Parts<'a> {
        Parts {
            rest: bytes,
            ends,
            given: 0,
            fails_at,
        }
    }

    /// Returns the number of bytes before the next end of a read.
    fn ahead(&self) -> usize {
        let Ok(given) = u32::try_from(self.given) else {
            return 1;
        };
        match self.ends.checked_shr(given) {
            Some(ends) => (ends.trailing_zeros() as usize).saturating_add(1),
            None => 1,
        }
    }
}

impl Read for Parts<'_> {
    fn read(&mut self, buf: &mut [u8]) -> io::Result<usize> {
        if self.given == self.fails_at {
            return Err(io::Error::from(ErrorKind::Interrupted));
        }
        let count = self.ahead().min(self.rest.len()).min(buf.len());
        let (given, rest) = self.rest.split_at(count);
        buf[..count].copy_from_slice(given);
        self.rest = rest;
        self.given = self.given.saturating_add(count);
        Ok(count)
    }
}

/// Gives one byte a read, without end: a number of `a`, then FF, then `a` again. It fails after a
/// number of bytes.
#[derive(Drop)]
pub struct Endless {
    before: usize,
    pub given: usize,
    fails_at: usize,
}

impl Endless {
    pub fn new(before: usize, fails_at: usize) -> Endless {
        Endless {
            before,
            given: 0,
            fails_at,
        }
    }
}

impl Read for Endless {
    fn read(&mut self, buf: &mut [u8]) -> io::Result<usize> {
        if self.given == self.fails_at {
            return Err(io::Error::from(ErrorKind::BrokenPipe));
        }
        if buf.is_empty() {
            return Ok(0);
        }
        buf[0] = if self.given == self.before {
            0xff
        } else {
            b'a'
        };
        self.given = self.given.saturating_add(1);
        Ok(1)
    }
}

/// Keeps at most `most` bytes a write. After `room` bytes it fails, or takes none.
#[derive(Drop)]
pub struct Narrow {
    pub kept: Vec<u8>,
    most: usize,
    room: usize,
    takes_none: bool,
}

impl Narrow {
    /// Returns a writer that fails at the end.
    pub fn new(rt: &HostRuntime, most: usize, room: usize) -> Narrow {
        Narrow {
            kept: Vec::new(rt.alloc()),
            most,
            room,
            takes_none: false,
        }
    }

    /// Returns a writer that takes no byte.
    pub fn full(rt: &HostRuntime) -> Narrow {
        Narrow {
            kept: Vec::new(rt.alloc()),
            most: 0,
            room: 0,
            takes_none: true,
        }
    }
}

impl Write for Narrow {
    fn write(&mut self, buf: &[u8]) -> io::Result<usize> {
        let count = self.most.min(self.room).min(buf.len());
        if count == 0 && !self.takes_none {
            return Err(io::Error::from(ErrorKind::Interrupted));
        }
        self.kept.extend_from_slice(&buf[..count])?;
        self.room -= count;
        Ok(count)
    }

    /// Clears the bytes kept, since no call may flush.
    fn flush(&mut self) -> io::Result<()> {
        self.kept.clear();
        Ok(())
    }
}

/// Gives one byte a read. After a number of bytes one read fails, or returns an end, and the next
/// would continue.
#[derive(Drop)]
pub struct Stumbling<'a> {
    rest: &'a [u8],
    before: usize,
    stumble: Option<Stumble>,
    calls: &'a Cell<usize>,
}

/// A single failure of a device, which would continue afterwards.
#[derive(Clone, Copy)]
pub enum Stumble {
    Fails(ErrorKind),
    MovesNone,
}

impl Stumble {
    fn answer(self) -> io::Result<usize>
        ensures { IfOk result (λ count. count ≡ 0) }
    {
        match self {
            Stumble::Fails(kind) => Err(io::Error::from(kind)),
            Stumble::MovesNone => Ok(0),
        }
    }
}

impl<'a> Stumbling<'a> {
    /// Returns a reader that counts its reads, also the one that fails.
    pub fn new(
        bytes: &'a [u8],
        before: usize,
        stumble: Stumble,
        calls: &'a Cell<usize>,
    ) -> Stumbling<'a> {
        Stumbling {
            rest: bytes,
            before,
            stumble: Some(stumble),
            calls,
        }
    }
}

impl Read for Stumbling<'_> {
    fn read(&mut self, buf: &mut [u8]) -> io::Result<usize> {
        self.calls.set(self.calls.get().saturating_add(1));
        if self.before == 0
            && let Some(stumble) = self.stumble.take()
        {
            return stumble.answer();
        }
        let count = 1.min(self.rest.len()).min(buf.len());
        let (given, rest) = self.rest.split_at(count);
        buf[..count].copy_from_slice(given);
        self.rest = rest;
        self.before = self.before.saturating_sub(count);
        Ok(count)
    }
}

/// Keeps at most a given number of bytes a write. After a number of bytes one write fails, or takes
/// none, and the next would continue.
#[derive(Drop)]
pub struct Halting<'a> {
    pub kept: Vec<u8>,
    most: usize,
    room: usize,
    stumble: Option<Stumble>,
    calls: &'a Cell<usize>,
}

impl<'a> Halting<'a> {
    /// Returns a writer that counts its writes, also the one that fails.
    pub fn new(
        alloc: Global,
        most: usize,
        room: usize,
        stumble: Stumble,
        calls: &'a Cell<usize>,
    ) -> Halting<'a> {
        Halting {
            kept: Vec::new(alloc),
            most,
            room,
            stumble: Some(stumble),
            calls,
        }
    }
}

impl Write for Halting<'_> {
    fn write(&mut self, buf: &[u8]) -> io::Result<usize> {
        self.calls.set(self.calls.get().saturating_add(1));
        if self.room == 0
            && let Some(stumble) = self.stumble.take()
        {
            return stumble.answer();
        }
        let room = if self.room == 0 { buf.len() } else { self.room };
        let count = self.most.min(room).min(buf.len());
        self.kept.extend_from_slice(&buf[..count])?;
        self.room = self.room.saturating_sub(count);
        Ok(count)
    }

    /// Clears the bytes kept, since no call may flush.
    fn flush(&mut self) -> io::Result<()> {
        self.kept.clear();
        Ok(())
    }
}
