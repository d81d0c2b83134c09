//! A buffer of replies.
ghost use Rattle.std.specs.Prelude.{◌≡◌, ◌+◌, ◌≤◌, ◌++◌, [], length, OnOk};
ghost use Rattle.std.specs.Io.KnownBytes.{Appends};
ghost use Rattle.rope_protocol.specs.Serving.{Puts};
ghost use Rattle.rope_protocol.specs.declared.output.TheConstants.{OUTPUT_BYTES};

use std::io::{self, Write};
use std::marker::Model;

/// The size of the buffer in bytes.
const OUTPUT_BYTES: usize = 8192;

/// The replies that are not written yet.
#[derive(Drop)]
pub(crate) struct Output {
    buffer: [u8; OUTPUT_BYTES],
    filled: usize,
    /// Whether no reply was put since the writer was flushed.
    is_flushed: bool,
}

impl Model for Output {
    ghost use Rattle.std.specs.Prelude.{ℕ, List, take, ◌≤◌};
    ghost use Rattle.rope_protocol.specs.declared.output.TheConstants.{OUTPUT_BYTES};

    ghost Value = { List ℕ };

    ghost view = { λ o. take o.filled o.buffer };

    ghost invariant = { λ o. o.filled ≤ OUTPUT_BYTES };
}

impl Output {
    /// Returns an empty buffer.
    pub(crate) fn new() -> Output
        ensures { result ≡ [] }
    {
        Output {
            buffer: [0; OUTPUT_BYTES],
            filled: 0,
            is_flushed: true,
        }
    }

    /// Puts a reply into the buffer. If there is no room for it, the buffer is written first.
    pub(crate) fn put<W: Write>(&mut self, writer: &mut W, reply: &[u8]) -> io::Result<()>
        ensures { OnOk result
            (Puts (W.contents writer.old) (W.contents writer.new) self.old self.new reply.now) }
    {
        if reply.len() <= OUTPUT_BYTES - self.filled {
            self.gather(reply);
            return Ok(());
        }
        self.write_gathered(writer)?;
        if reply.len() <= OUTPUT_BYTES {
            self.gather(reply);
            return Ok(());
        }
        writer.write_all(reply)
    }

    /// Adds a reply that fits.
    fn gather(&mut self, reply: &[u8])
        requires { length self.old + length reply.now ≤ OUTPUT_BYTES }
        ensures { self.new ≡ self.old ++ reply.now }
    {
        let end = self.filled + reply.len();
        self.buffer[self.filled..end].copy_from_slice(reply);
        self.filled = end;
        self.is_flushed = false;
    }

    /// Writes the buffer, once: after an error it is not written again.
    fn write_gathered<W: Write>(&mut self, writer: &mut W) -> io::Result<()>
        ensures ok { OnOk result
            (Appends (W.contents writer.old) (W.contents writer.new) self.old) }
        ensures empty { self.new ≡ [] }
    {
        let gathered = &self.buffer[..self.filled];
        let result = writer.write_all(gathered);
        self.filled = 0;
        self.is_flushed = false;
        result
    }

    /// Writes the buffer and flushes the writer, unless no reply was put since it was flushed.
    pub(crate) fn flush<W: Write>(&mut self, writer: &mut W) -> io::Result<()>
        ensures written { OnOk result
            (Appends (W.contents writer.old) (W.contents writer.new) self.old) }
        ensures empty { OnOk result (self.new ≡ []) }
    {
        if self.filled == 0 && self.is_flushed {
            return Ok(());
        }
        self.write_gathered(writer)?;
        writer.flush()?;
        self.is_flushed = true;
        Ok(())
    }
}
