//! Files in their encodings: `Encoding`, the errors, and the calls of `rope_files`.
ghost use Rattle.std.specs.Prelude.{◌≡◌, IfOk, OnOk};
ghost use Rattle.std.specs.Io.KnownBytes.{Appends};
ghost use Rattle.rope_files.specs.Encodings.{encode, mark_of, marked_encoding};
ghost use Rattle.rope_files.specs.Laws.{TextsAreTold};
ghost use Rattle.rope_files.specs.Reading.{AreBytes};

use rope_files::laws::files_keep_texts;
use rope_files::{
    Encoding, ReadAnyError, ReadAnyResult, WriteAsError, read_any, read_any_watched, write_as,
    write_as_watched,
};
use ropey::io::{Sink, Source};
use ropey::{Error, LineBreaks, Rope};
use std::alloc::Global;
use std::io::{self, Read, Write};

/// Returns the variants of `Encoding`.
pub fn encodings() -> [Encoding; 7] {
    [
        Encoding::Utf8,
        Encoding::Utf8Bom,
        Encoding::Utf16Le,
        Encoding::Utf16LeBom,
        Encoding::Utf16Be,
        Encoding::Utf16BeBom,
        Encoding::Latin1,
    ]
}

/// Returns the mark of an encoding.
pub fn mark(encoding: Encoding) -> &'static [u8]
    ensures { result.now ≡ mark_of encoding }
{
    encoding.mark()
}

/// Returns the encoding whose mark the bytes begin with.
pub fn of_mark(bytes: &[u8]) -> Encoding
    ensures { result ≡ marked_encoding bytes.now }
{
    Encoding::of_mark(bytes)
}

/// Reads a file from a reader.
pub fn read<R: Read + Drop>(
    alloc: Global,
    reader: R,
    breaks: LineBreaks,
    declared: Option<Encoding>,
) -> ReadAnyResult<(Rope, Encoding)>
    ensures { IfOk result (λ file. AreBytes (R.remaining reader) (encode file.1 file.0.text)) }
{
    read_any(alloc, reader, breaks, declared)
}

/// Reads a file from a source, and returns the source.
pub fn read_watched<S: Source>(
    alloc: Global,
    source: S,
    breaks: LineBreaks,
    declared: Option<Encoding>,
) -> (Result<(Rope, Encoding), ReadAnyError>, S) {
    read_any_watched(alloc, source, breaks, declared)
}

/// Writes a file to a writer.
pub fn write<W: Write + Drop>(
    rope: &Rope,
    encoding: Encoding,
    writer: W,
) -> Result<(), WriteAsError> {
    write_as(rope, encoding, writer)
}

/// Writes a file to a sink.
pub fn write_watched<S: Sink>(
    rope: &Rope,
    encoding: Encoding,
    sink: &mut S,
) -> Result<(), WriteAsError>
    ensures { OnOk result (Appends (S.contents sink.old) (S.contents sink.new)
        (encode encoding rope.now.text)) }
{
    write_as_watched(rope, encoding, sink)
}

/// Returns the variants of `ReadAnyError` that say where: with these causes and this offset.
pub fn read_errors(failure: io::Error, refusal: Error, offset: u64) -> [ReadAnyError; 6] {
    [
        ReadAnyError::Read(failure),
        ReadAnyError::NoMark,
        ReadAnyError::InvalidUtf8,
        ReadAnyError::UnpairedSurrogate(offset),
        ReadAnyError::HalfCodeUnit(offset),
        ReadAnyError::Rope(refusal),
    ]
}

/// Returns the variants of `WriteAsError`.
pub fn write_errors(failure: io::Error, index: usize) -> [WriteAsError; 2] {
    [
        WriteAsError::Write(failure),
        WriteAsError::Unencodable(index),
    ]
}

/// The laws of files.
pub fn laws()
    ensures { TextsAreTold }
{
    files_keep_texts();
}
