//! A file that is read in any encoding and written back in the same one.
ghost use Rattle.std.specs.Prelude.{IfSome, OnOk};
ghost use Rattle.std.specs.Io.KnownBytes.{Appends};

use rope_files::{Encoding, ReadAnyError, WriteAsError, read_any, write_as_watched};
use ropey::LineBreaks;
use ropey::io::Sink;
use std::alloc::Global;
use std::io::Read;

/// The reason why a file was not copied.
#[derive(Debug, Drop)]
pub enum CopyFileError {
    /// Reading failed.
    Read(ReadAnyError),
    /// Writing failed: a prefix of the file may have been written.
    Write(WriteAsError),
}

/// Reads a file to its end, writes the same bytes, and returns its encoding.
pub fn copy_file<R: Read + Drop, S: Sink>(
    alloc: Global,
    reader: R,
    sink: &mut S,
) -> Result<Encoding, CopyFileError>
    ensures { OnOk result (IfSome (R.remaining reader)
        (λ bytes. Appends (S.contents sink.old) (S.contents sink.new) bytes)) }
{
    let (rope, encoding) = match read_any(alloc, reader, LineBreaks::Unicode, None) {
        Ok(file) => file,
        Err(error) => return Err(CopyFileError::Read(error)),
    };
    match write_as_watched(&rope, encoding, sink) {
        Ok(()) => Ok(encoding),
        Err(error) => Err(CopyFileError::Write(error)),
    }
}
