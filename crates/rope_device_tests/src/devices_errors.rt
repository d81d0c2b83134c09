//! The errors of devices, which are passed on with their message and their number, and the number
//! of calls of a device.
use rope_plain::failure::{Failure, expect_same, within};
use rope_plain::sums::plus;
use rope_plain::texts::expect_shown;
use rope_plain::{holds, same};
use ropey::Rope;
use ropey::io::{Mark, ReadError, Sink, Source, Watched};
use std::alloc::Global;
use std::cell::Cell;
use std::io::{self, ErrorKind, Read, Write};

/// Moves one byte per call for a number of calls, and then fails with its error.
#[derive(Drop)]
struct Broken<'a> {
    good: usize,
    error: io::Error,
    calls: &'a Cell<usize>,
}

impl<'a> Broken<'a> {
    /// Returns a device that counts its calls, also those that fail.
    fn new(good: usize, error: io::Error, calls: &'a Cell<usize>) -> Broken<'a> {
        Broken { good, error, calls }
    }

    /// Counts a call, and fails if it must.
    fn call(&self) -> io::Result<()> {
        let calls = self.calls.get();
        self.calls.set(plus(calls, 1));
        if calls >= self.good {
            return Err(self.error);
        }
        Ok(())
    }
}

impl Read for Broken<'_> {
    fn read(&mut self, buf: &mut [u8]) -> io::Result<usize> {
        self.call()?;
        let Some(first) = buf.first_mut() else {
            return Ok(0);
        };
        *first = b'a';
        Ok(1)
    }
}

impl Write for Broken<'_> {
    fn write(&mut self, buf: &[u8]) -> io::Result<usize> {
        self.call()?;
        Ok(buf.len().min(1))
    }

    /// Fails, since no call may flush.
    fn flush(&mut self) -> io::Result<()> {
        Err(self.error)
    }
}

/// An error, with the number and the text that identify it.
#[derive(Clone, Copy)]
struct Known {
    error: io::Error,
    code: Option<i32>,
    text: &'static str,
}

/// Returns errors of a program, with a message, and of the system, with a number. Two have one
/// kind.
fn known_errors() -> [Known; 4] {
    let told = |error, text| Known {
        error,
        code: None,
        text,
    };
    let numbered = |code, text| Known {
        error: io::Error::from_raw_os_error(code),
        code: Some(code),
        text,
    };
    [
        told(
            io::Error::new(ErrorKind::Other, "the tape is torn"),
            "the tape is torn",
        ),
        told(
            io::Error::new(ErrorKind::WriteZero, "the tape is full"),
            "the tape is full",
        ),
        numbered(5, "Input/output error (os error 5)"),
        numbered(6, "No such device or address (os error 6)"),
    ]
}

/// Fails unless an error is the known one.
fn expect_error(alloc: Global, found: io::Error, known: &Known) -> Result<(), Failure> {
    expect_shown(format!(in alloc; "{found}"), known.text)?;
    same!(found.raw_os_error(), known.code);
    expect_same("found.kind()", &found.kind(), &known.error.kind())
}

/// Fails unless a call moved one byte.
fn expect_moved(answer: io::Result<usize>) -> Result<(), Failure> {
    expect_same("the number of bytes moved", &answer?, &1)
}

/// Fails unless a call failed with the known error.
fn expect_refused<T: Drop>(
    alloc: Global,
    answer: io::Result<T>,
    known: &Known,
) -> Result<(), Failure> {
    match answer {
        Ok(_) => Err(Failure::new("not refused")),
        Err(error) => expect_error(alloc, error, known),
    }
}

/// Fails unless each read of a watched device is one of the device's, and its error is passed on.
fn expect_taken(alloc: Global, known: &Known) -> Result<(), Failure> {
    let calls = Cell::new(0usize);
    let mut source = Watched::new(Broken::new(1, known.error, &calls));
    let buffer = &mut [0u8; 2];
    expect_moved(source.take(buffer))?;
    same!(calls.get(), 1);
    holds!(!source.failed());
    for count in 2..4usize {
        expect_refused(alloc, source.take(buffer), known)?;
        same!(calls.get(), count);
        holds!(source.failed());
    }
    Ok(())
}

/// Fails unless each write to a watched device is one of the device's, and its error is passed on.
fn expect_given(alloc: Global, known: &Known) -> Result<(), Failure> {
    let calls = Cell::new(0usize);
    let mut sink = Watched::new(Broken::new(1, known.error, &calls));
    expect_moved(sink.give(b"ab"))?;
    same!(calls.get(), 1);
    holds!(!sink.failed());
    for count in 2..4usize {
        expect_refused(alloc, sink.give(b"ab"), known)?;
        same!(calls.get(), count);
        holds!(sink.failed());
    }
    Ok(())
}

/// Fails unless a read of a text returned the reader's known error.
fn expect_read_error(
    alloc: Global,
    answer: Result<Rope, ReadError>,
    known: &Known,
) -> Result<(), Failure> {
    match answer {
        Err(ReadError::Read(error)) => expect_error(alloc, error, known),
        Err(error) => Err(error.into()),
        Ok(_) => Err(Failure::new("read, though the reader failed")),
    }
}

/// Fails unless a read of a text returns the reader's error, and doesn't call the reader again.
fn expect_reading(alloc: Global, good: usize, known: &Known) -> Result<(), Failure> {
    let calls = Cell::new(0usize);
    let reader = Broken::new(good, known.error, &calls);
    expect_read_error(alloc, Rope::from_reader(alloc, reader), known)?;
    same!(calls.get(), plus(good, 1));
    let calls = Cell::new(0usize);
    let mut source = Watched::new(Broken::new(good, known.error, &calls));
    expect_read_error(alloc, Rope::from_watched(alloc, &mut source), known)?;
    expect_same("calls.get()", &calls.get(), &plus(good, 1))
}

/// Fails unless a write of five bytes returns the writer's error, and doesn't call the writer
/// again.
fn expect_writing(alloc: Global, rope: &Rope, good: usize, known: &Known) -> Result<(), Failure> {
    let calls = Cell::new(0usize);
    let writer = Broken::new(good, known.error, &calls);
    expect_refused(alloc, rope.write_to(writer), known)?;
    same!(calls.get(), plus(good, 1));
    let calls = Cell::new(0usize);
    let mut sink = Watched::new(Broken::new(good, known.error, &calls));
    expect_refused(alloc, rope.write_watched(&mut sink), known)?;
    expect_same("calls.get()", &calls.get(), &plus(good, 1))
}

/// Fails unless the error is passed on by a watched device, a read and a write.
fn expect_through(alloc: Global, rope: &Rope, known: &Known) -> Result<(), Failure> {
    expect_taken(alloc, known)?;
    expect_given(alloc, known)?;
    for good in 0..5usize {
        expect_reading(alloc, good, known)?;
        expect_writing(alloc, rope, good, known)?;
    }
    Ok(())
}

fn expect_all_through(alloc: Global, rope: &Rope) -> Result<(), Failure> {
    for known in &known_errors() {
        within(
            format_args!("the error {}", known.text),
            expect_through(alloc, rope, known),
        )?;
    }
    Ok(())
}

#[test]
fn a_device_is_called_once_a_call_and_its_error_is_returned(
    rt: HostRuntime,
) -> Result<(), Failure> {
    let rope = Rope::from_str(rt.alloc(), "Hello")?;
    expect_all_through(rt.alloc(), &rope)
}
