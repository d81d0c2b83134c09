//! Texts written completely, chunk by chunk.
ghost use Rattle.std.specs.Prelude.{◌≡◌, ◌↔◌, true, false, OnOk, OnErr, IsErr, None};
ghost use Rattle.std.specs.Io.KnownBytes.{Appends};
ghost use Rattle.std.specs.Str.{encode_utf8_all};
ghost use Rattle.rope_slice.specs.Slice.{text_of};
ghost use Rattle.rope_io.specs.Failing.{IsWriteCounted};
ghost use Rattle.rope_io.specs.Writing.{AppendsFront};

use crate::device::Sink;
use rope_slice::RopeSlice;
use std::io::{self, ErrorKind};

/// Writes all the bytes, in one or more writes, without flushing. Takes no memory of its own.
///
/// # Errors
///
/// The sink's error, at once, also an interrupted write's; an error of the kind `WriteZero` if a
/// write takes none of its bytes. Then a prefix of the bytes has been written.
pub fn write_bytes<S: Sink>(sink: &mut S, bytes: &[u8]) -> io::Result<()>
    requires clear { S.marked sink.old ≡ false }
    requires none { S.failure sink.old ≡ None }
    ensures ok { OnOk result (Appends (S.contents sink.old) (S.contents sink.new) bytes.now) }
    ensures clear { OnOk result (S.marked sink.new ≡ false) }
    ensures err { OnErr result (S.marked sink.new ≡ true) }
    ensures front { AppendsFront (S.contents sink.old) (S.contents sink.new) bytes.now }
    ensures failure { IsWriteCounted result (S.failure sink.new)
        (S.failures sink.old) (S.failures sink.new) }
{
    let mut rest = bytes;
    while !rest.is_empty() {
        let count = sink.give(rest)?;
        if count == 0 {
            return Err(io::Error::from(ErrorKind::WriteZero));
        }
        rest = &rest[count..];
    }
    Ok(())
}

/// Writes the whole text, without flushing. Clears the mark first. Takes no memory of its own.
///
/// # Errors
///
/// The sink's error, at once, also an interrupted write's; an error of the kind `WriteZero` if a
/// write takes none of its bytes. Then a prefix of the text has been written, and the sink is not
/// called again.
pub fn write_slice<S: Sink>(slice: &RopeSlice<'_>, sink: &mut S) -> io::Result<()>
    ensures ok { OnOk result
        (Appends (S.contents sink.old) (S.contents sink.new)
        (encode_utf8_all (text_of slice.now))) }
    ensures front { AppendsFront (S.contents sink.old) (S.contents sink.new)
        (encode_utf8_all (text_of slice.now)) }
    ensures failed { IsErr result ↔ (S.marked sink.new ≡ true) }
    ensures failure { IsWriteCounted result (S.failure sink.new)
        (S.failures sink.old) (S.failures sink.new) }
{
    sink.clear();
    for chunk in slice.chunks() {
        write_bytes(sink, chunk.as_bytes())?;
    }
    Ok(())
}
