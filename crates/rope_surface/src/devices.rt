//! Devices that are read and written: the traits, `Watched`, `ReadError`, and the calls of `Rope`.
ghost use Rattle.std.specs.Prelude.{◌≡◌, IfOk, OnOk};
ghost use Rattle.std.specs.Io.{ReadsAtMost, WritesAtMost};
ghost use Rattle.std.specs.Io.KnownBytes.{Appends};
ghost use Rattle.std.specs.Str.{encode_utf8_all};
ghost use Rattle.ropey.specs.Texts.{AreUtf8Of};

use ropey::io::{Failure, Mark, ReadError, Sink, Source, Watched};
use ropey::{Error, LineBreaks, Rope};
use std::alloc::Global;
use std::io::{self, Read, Write};

/// Takes a device's mark away.
pub fn clear<M: Mark>(device: &mut M)
    ensures { device.new ≡ M.cleared device.old }
{
    device.clear();
}

/// Returns whether a device's mark is set.
pub fn failed<M: Mark>(device: &M) -> bool
    ensures { result ≡ M.marked device.now }
{
    device.failed()
}

/// Returns the error with which a device failed, if it returned one.
pub fn returned_error(failure: Failure) -> Option<io::Error> {
    match failure {
        Failure::Returned(error) => Some(error),
        Failure::TookNone => None,
    }
}

/// Reads from a source.
pub fn take<S: Source>(source: &mut S, buf: &mut [u8]) -> io::Result<usize>
    ensures { ReadsAtMost result buf.new }
{
    source.take(buf)
}

/// Writes to a sink.
pub fn give<S: Sink>(sink: &mut S, buf: &[u8]) -> io::Result<usize>
    ensures { WritesAtMost result buf.now }
{
    sink.give(buf)
}

/// Reads a rope from a reader that is watched, and returns the reader.
pub fn from_watched<R: Read>(alloc: Global, reader: R) -> (Result<Rope, ReadError>, bool, R) {
    let mut source: Watched<R> = Watched::new(reader);
    let rope = Rope::from_watched(alloc, &mut source);
    let is_marked = failed(&source);
    (rope, is_marked, source.into_inner())
}

/// Reads a rope from a source, with a set of line breaks.
pub fn from_watched_with<S: Source>(
    alloc: Global,
    source: &mut S,
    breaks: LineBreaks,
) -> Result<Rope, ReadError>
    ensures { IfOk result (λ rope. rope.breaks ≡ breaks) }
{
    Rope::from_watched_with(alloc, source, breaks)
}

/// Reads a rope from a reader.
pub fn from_reader<R: Read + Drop>(alloc: Global, reader: R) -> Result<Rope, ReadError>
    ensures { IfOk result (λ rope. AreUtf8Of (R.remaining reader) rope.text) }
{
    Rope::from_reader(alloc, reader)
}

/// Reads a rope from a reader, with a set of line breaks.
pub fn from_reader_with<R: Read + Drop>(
    alloc: Global,
    reader: R,
    breaks: LineBreaks,
) -> Result<Rope, ReadError>
    ensures { IfOk result (λ rope. rope.breaks ≡ breaks) }
{
    Rope::from_reader_with(alloc, reader, breaks)
}

/// Writes a rope to a writer.
pub fn write_to<W: Write + Drop>(rope: &Rope, writer: W) -> io::Result<()> {
    rope.write_to(writer)
}

/// Writes a rope to a sink.
pub fn write_watched<S: Sink>(rope: &Rope, sink: &mut S) -> io::Result<()>
    ensures { OnOk result (Appends (S.contents sink.old) (S.contents sink.new)
        (encode_utf8_all rope.now.text)) }
{
    rope.write_watched(sink)
}

/// Writes a rope to a writer that is watched.
pub fn write_to_watched<W: Write>(rope: &Rope, writer: W) -> (io::Result<()>, W) {
    let mut sink: Watched<W> = Watched::new(writer);
    let written = write_watched(rope, &mut sink);
    (written, sink.into_inner())
}

/// Returns the variants of `ReadError`, the first with this error of a reader.
pub fn read_errors(failure: io::Error, refusal: Error) -> (ReadError, ReadError, ReadError) {
    (
        ReadError::Read(failure),
        ReadError::InvalidData,
        ReadError::Rope(refusal),
    )
}

/// Returns the reader's error of a `ReadError`, or the rope's.
pub fn cause(error: ReadError) -> (Option<io::Error>, Option<Error>) {
    match error {
        ReadError::Read(failure) => (Some(failure), None),
        ReadError::InvalidData => (None, None),
        ReadError::Rope(refusal) => (None, Some(refusal)),
    }
}
