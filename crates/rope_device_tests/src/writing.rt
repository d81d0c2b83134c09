//! Writers that take few bytes, fail, or take none.
use crate::devices::Narrow;
use crate::stumbles::write_kind;
use rope_plain::failure::{Failure, at, expect_same};
use rope_plain::texts::repeated;
use rope_plain::{holds, same};
use ropey::Rope;
use ropey::io::{Mark, Watched};
use std::alloc::Global;
use std::io::ErrorKind;

/// Fails unless a write to a watched device has an error of this kind, or none, leaves these bytes,
/// and sets the mark only if it fails.
fn expect_written_and_marked(
    rope: &Rope,
    device: Narrow,
    kind: Option<ErrorKind>,
    bytes: &[u8],
) -> Result<(), Failure> {
    let mut sink = Watched::new(device);
    same!(write_kind(rope.write_watched(&mut sink)), kind);
    let is_marked = sink.failed();
    let writer = sink.into_inner();
    same!(is_marked, kind.is_some());
    expect_same("writer.kept", &writer.kept.as_slice(), &bytes)
}

/// Fails unless a rope is written without a mark, and once more after its bytes.
fn expect_written_twice(alloc: Global, rope: &Rope) -> Result<(), Failure> {
    let mut sink = Watched::new(Vec::new(alloc));
    rope.write_watched(&mut sink)?;
    holds!(!sink.failed());
    let mut bytes = sink.into_inner();
    rope.write_to(&mut bytes)?;
    expect_same("bytes", &bytes.as_slice(), &b"Hello!Hello!".as_slice())
}

#[test]
fn a_rope_is_written_to_memory_twice(rt: HostRuntime) -> Result<(), Failure> {
    let rope = Rope::from_str(rt.alloc(), "Hello!")?;
    expect_written_twice(rt.alloc(), &rope)
}

#[test]
fn the_empty_text_is_never_refused(rt: HostRuntime) -> Result<(), Failure> {
    let rope = Rope::new(rt.alloc())?;
    expect_written_and_marked(&rope, Narrow::full(&rt), None, b"")
}

/// Fails unless a write to a device with `room` bytes keeps that many, and fails if that is too
/// few.
fn expect_stopped(rt: &HostRuntime, rope: &Rope, bytes: &[u8], room: usize) -> Result<(), Failure> {
    let kind = if room < 3000 {
        Some(ErrorKind::Interrupted)
    } else {
        None
    };
    let (front, _) = bytes.split_at(room.min(bytes.len()));
    expect_written_and_marked(rope, Narrow::new(rt, 7, room), kind, front)
}

fn expect_stopped_at_each_byte(rt: &HostRuntime, rope: &Rope, bytes: &[u8]) -> Result<(), Failure> {
    for room in 0..3001usize {
        at("room", room, expect_stopped(rt, rope, bytes, room))?;
    }
    expect_same("bytes.len()", &bytes.len(), &3000)
}

#[test]
fn a_write_stops_at_each_byte(rt: HostRuntime) -> Result<(), Failure> {
    let text = repeated(rt.alloc(), "abc\ndefgh\r", 300)?;
    let rope = Rope::from_str(rt.alloc(), text.as_str())?;
    expect_stopped_at_each_byte(&rt, &rope, text.as_str().as_bytes())
}
