//! Devices that fail once, or move no byte once, and would then continue: they are not called
//! again.
use crate::devices::{Halting, Stumble, Stumbling};
use rope_plain::failure::{Failure, at, expect_same};
use rope_plain::sums::plus;
use rope_plain::texts::repeated;
use rope_plain::{holds, same};
use ropey::Rope;
use ropey::io::{Mark, ReadError, Watched};
use std::alloc::Global;
use std::cell::Cell;
use std::io::{self, ErrorKind};

/// Failures after which a device may continue.
const KINDS: [ErrorKind; 4] = [
    ErrorKind::Interrupted,
    ErrorKind::WouldBlock,
    ErrorKind::TimedOut,
    ErrorKind::Other,
];

/// Characters of one to four bytes, and a pair, in 12 bytes.
const TEXT: &str = "aé\r\nこ🐸";

/// Returns the kind of the error of a read, if it is the reader's.
pub fn read_kind(answer: Result<Rope, ReadError>) -> Option<ErrorKind> {
    match answer {
        Err(ReadError::Read(error)) => Some(error.kind()),
        _ => None,
    }
}

/// Returns the kind of the error of a write, if it failed.
pub fn write_kind(written: io::Result<()>) -> Option<ErrorKind> {
    match written {
        Ok(()) => None,
        Err(error) => Some(error.kind()),
    }
}

/// Fails unless a read returns the single failure after a number of bytes, and doesn't read again.
fn expect_failed(alloc: Global, before: usize, kind: ErrorKind) -> Result<(), Failure> {
    let calls = Cell::new(0usize);
    let reader = Stumbling::new(TEXT.as_bytes(), before, Stumble::Fails(kind), &calls);
    let answer = read_kind(Rope::from_reader(alloc, reader));
    same!(answer, Some(kind));
    expect_same("calls.get()", &calls.get(), &plus(before, 1))
}

/// Fails unless a read from a watched device does so too, and sets the mark.
fn expect_marked(alloc: Global, before: usize, kind: ErrorKind) -> Result<(), Failure> {
    let calls = Cell::new(0usize);
    let reader = Stumbling::new(TEXT.as_bytes(), before, Stumble::Fails(kind), &calls);
    let mut source = Watched::new(reader);
    let answer = read_kind(Rope::from_watched(alloc, &mut source));
    same!(answer, Some(kind));
    holds!(source.failed());
    expect_same("calls.get()", &calls.get(), &plus(before, 1))
}

fn expect_failed_at_each_byte(alloc: Global, kind: ErrorKind) -> Result<(), Failure> {
    for before in 0..13usize {
        at("before", before, expect_failed(alloc, before, kind))?;
        at("before", before, expect_marked(alloc, before, kind))?;
    }
    Ok(())
}

#[test]
fn a_read_fails_once(rt: HostRuntime) -> Result<(), Failure> {
    for (row, kind) in KINDS.iter().enumerate() {
        at("row", row, expect_failed_at_each_byte(rt.alloc(), *kind))?;
    }
    Ok(())
}

/// Fails unless a rope has the first bytes of the text.
fn expect_front(alloc: Global, rope: &Rope, len: usize) -> Result<(), Failure> {
    let mut written = Vec::new(alloc);
    let (front, _) = TEXT.as_bytes().split_at(len.min(TEXT.len()));
    rope.write_to(&mut written)?;
    expect_same("written", &written.as_slice(), &front)
}

/// Fails unless a read returns the text up to an end after a number of bytes, or `InvalidData`.
fn expect_end_read(
    alloc: Global,
    answer: Result<Rope, ReadError>,
    len: usize,
) -> Result<(), Failure> {
    let is_start = [0usize, 1, 3, 4, 5, 8, 12].contains(&len);
    match answer {
        Ok(rope) => {
            holds!(is_start);
            expect_front(alloc, &rope, len)
        }
        Err(ReadError::InvalidData) => {
            holds!(!is_start);
            Ok(())
        }
        Err(error) => Err(error.into()),
    }
}

/// Fails unless a read ends correctly at the single end after a number of bytes, and doesn't read
/// again.
fn expect_ended(alloc: Global, before: usize) -> Result<(), Failure> {
    let calls = Cell::new(0usize);
    let reader = Stumbling::new(TEXT.as_bytes(), before, Stumble::MovesNone, &calls);
    expect_end_read(alloc, Rope::from_reader(alloc, reader), before)?;
    expect_same("calls.get()", &calls.get(), &plus(before, 1))
}

#[test]
fn an_end_is_reported_once(rt: HostRuntime) -> Result<(), Failure> {
    for before in 0..13usize {
        at("before", before, expect_ended(rt.alloc(), before))?;
    }
    Ok(())
}

/// Returns the error kind of a write at such a failure.
fn kind_of(stumble: Stumble) -> ErrorKind {
    match stumble {
        Stumble::Fails(kind) => kind,
        Stumble::MovesNone => ErrorKind::WriteZero,
    }
}

/// Returns the first bytes of the text.
fn front_of(room: usize) -> &'static [u8] {
    TEXT.as_bytes().split_at(room.min(TEXT.len())).0
}

/// Fails unless this error comes of such a failure after a number of calls.
fn expect_stopped(
    stumble: Stumble,
    room: usize,
    answer: Option<ErrorKind>,
    calls: usize,
) -> Result<(), Failure> {
    same!(answer, Some(kind_of(stumble)));
    expect_same("calls.get()", &calls, &plus(room, 1))
}

/// Fails unless a write stops at the single failure after a number of bytes, with these kept, and
/// doesn't write again.
fn expect_halted(alloc: Global, rope: &Rope, room: usize, stumble: Stumble) -> Result<(), Failure> {
    let calls = Cell::new(0usize);
    let mut writer = Halting::new(alloc, 1, room, stumble, &calls);
    let answer = write_kind(rope.write_to(&mut writer));
    expect_stopped(stumble, room, answer, calls.get())?;
    expect_same("writer.kept", &writer.kept.as_slice(), &front_of(room))
}

/// Fails unless a write to a watched device does so too, and sets the mark.
fn expect_halted_and_marked(
    alloc: Global,
    rope: &Rope,
    room: usize,
    stumble: Stumble,
) -> Result<(), Failure> {
    let calls = Cell::new(0usize);
    let mut sink = Watched::new(Halting::new(alloc, 1, room, stumble, &calls));
    let answer = write_kind(rope.write_watched(&mut sink));
    holds!(sink.failed());
    let writer = sink.into_inner();
    expect_stopped(stumble, room, answer, calls.get())?;
    expect_same("writer.kept", &writer.kept.as_slice(), &front_of(room))
}

fn expect_halted_at_each_byte(alloc: Global, rope: &Rope, stumble: Stumble) -> Result<(), Failure> {
    for room in 0..12usize {
        at("room", room, expect_halted(alloc, rope, room, stumble))?;
        let marked = expect_halted_and_marked(alloc, rope, room, stumble);
        at("room", room, marked)?;
    }
    Ok(())
}

fn expect_halted_by_each_failure(alloc: Global, rope: &Rope) -> Result<(), Failure> {
    for (row, kind) in KINDS.iter().enumerate() {
        let outcome = expect_halted_at_each_byte(alloc, rope, Stumble::Fails(*kind));
        at("row", row, outcome)?;
    }
    Ok(())
}

#[test]
fn a_write_fails_once(rt: HostRuntime) -> Result<(), Failure> {
    let rope = Rope::from_str(rt.alloc(), TEXT)?;
    expect_halted_by_each_failure(rt.alloc(), &rope)
}

#[test]
fn a_write_of_no_bytes_fails_once(rt: HostRuntime) -> Result<(), Failure> {
    let rope = Rope::from_str(rt.alloc(), TEXT)?;
    expect_halted_at_each_byte(rt.alloc(), &rope, Stumble::MovesNone)
}

/// Fails unless a write of complete chunks stops at the single failure after a number of bytes,
/// with these kept.
fn expect_halted_within(
    alloc: Global,
    rope: &Rope,
    text: &str,
    room: usize,
    stumble: Stumble,
) -> Result<(), Failure> {
    let calls = Cell::new(0usize);
    let mut writer = Halting::new(alloc, usize::MAX, room, stumble, &calls);
    let answer = write_kind(rope.write_to(&mut writer));
    let (front, _) = text.as_bytes().split_at(room.min(text.len()));
    same!(answer, Some(kind_of(stumble)));
    expect_same("writer.kept", &writer.kept.as_slice(), &front)
}

fn expect_halted_within_chunks(alloc: Global, rope: &Rope, text: &str) -> Result<(), Failure> {
    for room in &[0usize, 1, 977, 984, 985, 1962, 2999] {
        let fails = Stumble::Fails(ErrorKind::Interrupted);
        expect_halted_within(alloc, rope, text, *room, fails)?;
        expect_halted_within(alloc, rope, text, *room, Stumble::MovesNone)?;
    }
    expect_same("text.len()", &text.len(), &3000)
}

#[test]
fn nothing_is_written_after_a_failed_chunk(rt: HostRuntime) -> Result<(), Failure> {
    let text = repeated(rt.alloc(), "abc\ndefgh\r", 300)?;
    let rope = Rope::from_str(rt.alloc(), text.as_str())?;
    expect_halted_within_chunks(rt.alloc(), &rope, text.as_str())
}
