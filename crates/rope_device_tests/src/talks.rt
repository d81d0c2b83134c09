//! Readers that give a few bytes at once, writers with little room, and both ends of a dialogue.
use rope_plain::failure::{Failure, at, expect_same, within};
use std::alloc::Global;
use std::cell::Cell;
use std::io::{self, ErrorKind, Read, Write};

/// Gives a few bytes a read.
#[derive(Drop)]
pub struct Dripping<'a> {
    pub rest: &'a [u8],
    pub step: usize,
}

impl Read for Dripping<'_> {
    fn read(&mut self, buf: &mut [u8]) -> io::Result<usize> {
        let count = self.step.min(self.rest.len()).min(buf.len());
        let (given, rest) = self.rest.split_at(count);
        buf[..count].copy_from_slice(given);
        self.rest = rest;
        Ok(count)
    }
}

/// Fails unless the reply with a number, from 1, is the expected one.
fn expect_reply(number: usize, found: Option<&str>, wanted: &str) -> Result<(), Failure> {
    at("reply", number, expect_same("it", &found, &Some(wanted)))
}

/// Fails unless there is no reply.
fn expect_no_reply(found: Option<&str>) -> Result<(), Failure> {
    within("past the last reply", expect_same("it", &found, &None))
}

/// Fails at the first line that is not the expected one, with its number, from 1.
fn expect_same_lines(found: &str, wanted: &str) -> Result<(), Failure> {
    let mut lines = found.split('\n');
    let mut number: usize = 0;
    for line in wanted.split('\n') {
        number = number.saturating_add(1);
        expect_reply(number, lines.next(), line)?;
    }
    expect_no_reply(lines.next())
}

/// Fails unless the bytes written are a text.
fn expect_same_text(written: &[u8], text: &str) -> Result<(), Failure> {
    let Ok(found) = str::from_utf8(written) else {
        return Err(Failure::new("no UTF-8 was written"));
    };
    expect_same_lines(found, text)
}

/// Keeps a number of bytes, and then fails. Its flush may fail too.
#[derive(Drop)]
pub struct Narrow {
    pub kept: Vec<u8>,
    pub room: usize,
    pub is_flushed: bool,
    pub fails_to_flush: bool,
}

impl Narrow {
    pub fn new(alloc: Global, room: usize) -> Narrow {
        Narrow {
            kept: Vec::new(alloc),
            room,
            is_flushed: false,
            fails_to_flush: false,
        }
    }

    /// Fails unless it keeps this text, and has flushed all of it.
    pub fn expect_flushed(&self, text: &str) -> Result<(), Failure> {
        let count = self.kept.len();
        if count > 0 && !self.is_flushed {
            return Err(Failure::new(format_args!("not all of {count} bytes were flushed")));
        }
        expect_same_text(self.kept.as_slice(), text)
    }
}

impl Write for Narrow {
    fn write(&mut self, buf: &[u8]) -> io::Result<usize> {
        let count = self.room.min(buf.len());
        if count == 0 {
            return Err(io::Error::from(ErrorKind::Other));
        }
        self.kept.extend_from_slice(&buf[..count])?;
        self.room -= count;
        self.is_flushed = false;
        Ok(count)
    }

    fn flush(&mut self) -> io::Result<()> {
        if self.fails_to_flush {
            return Err(io::Error::from(ErrorKind::Other));
        }
        self.is_flushed = true;
        Ok(())
    }
}

/// Gives one piece a read, and notes at each read the number of replies flushed by then.
#[derive(Drop)]
pub struct Asking<'a> {
    parts: &'a [&'a str],
    given: usize,
    flushed: &'a Cell<usize>,
    pub seen: Vec<usize>,
}

impl<'a> Asking<'a> {
    /// Returns a reader of pieces, each with at most as many bytes as a read.
    pub fn new(alloc: Global, parts: &'a [&'a str], flushed: &'a Cell<usize>) -> Asking<'a> {
        Asking {
            parts,
            given: 0,
            flushed,
            seen: Vec::new(alloc),
        }
    }
}

impl Read for Asking<'_> {
    fn read(&mut self, buf: &mut [u8]) -> io::Result<usize> {
        self.seen.push(self.flushed.get())?;
        let Some(part) = self.parts.get(self.given) else {
            return Ok(0);
        };
        if part.len() > buf.len() {
            return Err(io::Error::from(ErrorKind::InvalidInput));
        }
        buf[..part.len()].copy_from_slice(part.as_bytes());
        self.given = self.given.saturating_add(1);
        Ok(part.len())
    }
}

/// Counts the replies written, and publishes their number when it is flushed.
#[derive(Drop)]
pub struct Telling<'a> {
    written: usize,
    flushed: &'a Cell<usize>,
}

impl<'a> Telling<'a> {
    pub fn new(flushed: &'a Cell<usize>) -> Telling<'a> {
        Telling {
            written: 0,
            flushed,
        }
    }
}

impl Write for Telling<'_> {
    fn write(&mut self, buf: &[u8]) -> io::Result<usize> {
        let lines = buf.iter().filter(|byte| **byte == b'\n').count();
        self.written = self.written.saturating_add(lines);
        Ok(buf.len())
    }

    fn flush(&mut self) -> io::Result<()> {
        self.flushed.set(self.written);
        Ok(())
    }
}

/// Gives one piece a read. After a number of pieces one read is interrupted, and the next would
/// continue. It counts its reads.
#[derive(Drop)]
pub struct Stumbling<'a> {
    parts: &'a [&'a str],
    given: usize,
    fails_at: usize,
    has_failed: bool,
    pub reads: usize,
}

impl<'a> Stumbling<'a> {
    /// Returns a reader of pieces, each with at most as many bytes as a read.
    pub fn new(parts: &'a [&'a str], fails_at: usize) -> Stumbling<'a> {
        Stumbling {
            parts,
            given: 0,
            fails_at,
            has_failed: false,
            reads: 0,
        }
    }
}

impl Read for Stumbling<'_> {
    fn read(&mut self, buf: &mut [u8]) -> io::Result<usize> {
        self.reads = self.reads.saturating_add(1);
        if self.given == self.fails_at && !self.has_failed {
            self.has_failed = true;
            return Err(io::Error::from(ErrorKind::Interrupted));
        }
        let Some(part) = self.parts.get(self.given) else {
            return Ok(0);
        };
        if part.len() > buf.len() {
            return Err(io::Error::from(ErrorKind::InvalidInput));
        }
        buf[..part.len()].copy_from_slice(part.as_bytes());
        self.given = self.given.saturating_add(1);
        Ok(part.len())
    }
}

/// Keeps one byte a write. After a number of bytes one write is interrupted, or takes none, and the
/// next would continue.
#[derive(Drop)]
pub struct Halting {
    pub kept: Vec<u8>,
    room: usize,
    takes_none: bool,
    has_halted: bool,
}

impl Halting {
    /// Returns a writer that is interrupted once, or else takes none once.
    pub fn new(alloc: Global, room: usize, takes_none: bool) -> Halting {
        Halting {
            kept: Vec::new(alloc),
            room,
            takes_none,
            has_halted: false,
        }
    }
}

impl Write for Halting {
    fn write(&mut self, buf: &[u8]) -> io::Result<usize> {
        if self.kept.len() == self.room && !self.has_halted {
            self.has_halted = true;
            if self.takes_none {
                return Ok(0);
            }
            return Err(io::Error::from(ErrorKind::Interrupted));
        }
        let count = 1.min(buf.len());
        self.kept.extend_from_slice(&buf[..count])?;
        Ok(count)
    }

    fn flush(&mut self) -> io::Result<()> {
        Ok(())
    }
}
