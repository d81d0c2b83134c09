//! A text that is read from any reader and written to any writer.
ghost use Rattle.std.specs.Prelude.{IfOk, IfSome};
ghost use Rattle.std.specs.Io.KnownBytes.{Appends};

use ropey::Rope;
use ropey::io::{ReadError, Watched};
use std::alloc::Global;
use std::io::{self, Read, Write};

/// The reason why a text was not copied.
#[derive(Debug, Drop)]
pub enum CopyError {
    /// Reading failed.
    Read(ReadError),
    /// Writing failed: a prefix of the text may have been written.
    Write(io::Error),
}

impl From<ReadError> for CopyError {
    fn from(error: ReadError) -> CopyError {
        CopyError::Read(error)
    }
}

impl From<io::Error> for CopyError {
    fn from(error: io::Error) -> CopyError {
        CopyError::Write(error)
    }
}

/// Reads a text to its end, writes it, and returns the writer.
pub fn copy_text<R: Read + Drop, W: Write + Drop>(
    alloc: Global,
    reader: R,
    writer: W,
) -> Result<W, CopyError>
    ensures { IfOk result (λ written. IfSome (R.remaining reader)
        (λ bytes. Appends (W.contents writer) (W.contents written) bytes)) }
{
    let rope = Rope::from_reader(alloc, reader)?;
    let mut sink = Watched::new(writer);
    rope.write_watched(&mut sink)?;
    Ok(sink.into_inner())
}
