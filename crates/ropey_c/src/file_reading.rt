//! Ropes made of the bytes of a file in an encoding.
ghost use Rattle.std.specs.Prelude.{◌≡◌, ◌≢◌, ◌⊎◌, ℕ, List, false, None, Some, Ok, Err, IfOk, refl};
ghost use Rattle.rope_files.specs.Reading.{ReadsAny, text_read, IsReadFailure};
ghost use Rattle.rope_files.specs.Encodings.{layout_of};
ghost use Rattle.ropey_c.specs.Status.{given_breaks};
ghost use Rattle.ropey_c.specs.Files.{encoding_of_bytes, offset_of_fault, IsRead, ReportsRead, ReadsAs};

use crate::encodings::{Fault, encoding_of_bytes, number_of_encoding, status_of_fault};
use crate::handle::Handle;
use crate::macros::{breaks_for, some_or};
use crate::makers::keep;
use crate::status::{OK, UNKNOWN_ENCODING, given_breaks};
use rope_files::{Encoding, ReadAnyError, ReadAnyResult, read_any_watched};
use rope_text::utf8;
use ropey::io::{Mark, Source};
use ropey::{Error, LineBreaks, Rope};
use std::alloc::Global;
use std::io;

/// The result of reading a file.
type Read = std::result::Result<Rope, Fault>;

/// Bytes that are given in order. No read of them fails.
#[derive(Drop)]
struct Given<'a> {
    rest: &'a [u8],
}

impl Mark for Given<'_> {
    ghost marked = { λ _. false };

    ghost failure = { λ _. None };

    ghost failures = { λ _. 0 };

    ghost cleared = { λ given. given };

    ghost cleared_unmarked = { λ _. refl };

    ghost cleared_failure = { λ _. refl };

    ghost cleared_failures = { λ _. refl };

    fn clear(&mut self) {}

    fn failed(&self) -> bool {
        false
    }
}

impl Source for Given<'_> {
    ghost remaining = { λ given. Some given.rest.now };

    ghost cleared_remaining = { λ _. refl };

    fn take(&mut self, buf: &mut [u8]) -> io::Result<usize> {
        let count = self.rest.len().min(buf.len());
        buf[..count].copy_from_slice(&self.rest[..count]);
        self.rest = &self.rest[count..];
        Ok(count)
    }
}

// Reads UTF-8.
fn read_utf8(alloc: Global, bytes: &[u8], breaks: LineBreaks, encoding: Encoding) -> Read
    requires { layout_of encoding ≡ None }
    ensures { IsRead encoding breaks bytes.now result }
{
    let mark = encoding.mark();
    if !bytes.starts_with(mark) {
        return Err(Fault::NoMark);
    }
    let body = &bytes[mark.len()..];
    let Some(text) = utf8::text_of(body) else {
        return Err(Fault::InvalidUtf8(mark.len() + utf8::valid_len(body)));
    };
    match Rope::from_str_with(alloc, text, breaks) {
        Ok(rope) => Ok(rope),
        Err(_) => Err(Fault::OutOfMemory),
    }
}

// Reads bytes, which are given without an error.
fn read_given(
    alloc: Global,
    bytes: &[u8],
    breaks: LineBreaks,
    encoding: Encoding,
) -> ReadAnyResult<(Rope, Encoding)>
    ensures answer { (left : List ℕ)
        × ReadsAny text_read (Some encoding) (Some bytes.now) (Some left) false result }
    ensures ok { IfOk result (λ file. IsRead encoding breaks bytes.now (Ok file.0)) }
    ensures given { IsReadFailure result → ⊥ }
{
    let (read, _) = read_any_watched(alloc, Given { rest: bytes }, breaks, Some(encoding));
    read
}

// The fault of an error of a rope.
fn size_fault(error: Error) -> Fault
    ensures either { (result ≡ Fault.TooLong) × (error ≡ Error.TooLong)
        ⊎ (result ≡ Fault.OutOfMemory) }
    ensures too_long { error ≡ Error.TooLong → result ≡ Fault.TooLong }
{
    match error {
        Error::TooLong => Fault::TooLong,
        _ => Fault::OutOfMemory,
    }
}

// Reads UTF-16 or Latin-1.
fn read_laid(alloc: Global, bytes: &[u8], breaks: LineBreaks, encoding: Encoding) -> Read
    requires { layout_of encoding ≢ None }
    ensures { IsRead encoding breaks bytes.now result }
{
    match read_given(alloc, bytes, breaks, encoding) {
        Ok((rope, _)) => Ok(rope),
        Err(ReadAnyError::NoMark) => Err(Fault::NoMark),
        Err(ReadAnyError::UnpairedSurrogate(at)) => Err(Fault::UnpairedSurrogate(at as usize)),
        Err(ReadAnyError::HalfCodeUnit(at)) => Err(Fault::HalfCodeUnit(at as usize)),
        Err(ReadAnyError::Rope(error)) => Err(size_fault(error)),
        // The encoding is not UTF-8.
        Err(ReadAnyError::Read(_) | ReadAnyError::InvalidUtf8) => unreachable!(),
    }
}

fn read(alloc: Global, bytes: &[u8], breaks: LineBreaks, encoding: Encoding) -> Read
    ensures { IsRead encoding breaks bytes.now result }
{
    match encoding {
        Encoding::Utf8 | Encoding::Utf8Bom => read_utf8(alloc, bytes, breaks, encoding),
        _ => read_laid(alloc, bytes, breaks, encoding),
    }
}

// Writes where a fault is, if it is at an offset.
fn write_offset(fault: Fault, offset: &mut usize)
    ensures { offset.new ≡ offset_of_fault fault offset.old }
{
    match fault {
        Fault::InvalidUtf8(at) | Fault::UnpairedSurrogate(at) | Fault::HalfCodeUnit(at) => {
            *offset = at;
        }
        Fault::NoMark | Fault::TooLong | Fault::OutOfMemory => {}
    }
}

// Puts a rope into the handle and writes its encoding, or writes the offset of a fault.
fn report(
    alloc: Global,
    read: Read,
    encoding: Encoding,
    rope: &mut Handle,
    found: &mut u32,
    offset: &mut usize,
) -> u32
    ensures { ReportsRead encoding read result rope.old.rope rope.new.rope
        found.old found.new offset.old offset.new
        ⊎ ReportsRead encoding (Err Fault.OutOfMemory) result rope.old.rope rope.new.rope
        found.old found.new offset.old offset.new }
{
    let made = match read {
        Ok(made) => made,
        Err(fault) => {
            write_offset(fault, offset);
            return status_of_fault(fault);
        }
    };
    let status = keep(alloc, made, rope);
    if status == OK {
        *found = number_of_encoding(encoding);
    }
    status
}

/// Makes a rope of the bytes of a file, with a set of line breaks, frees the one that the handle
/// held, and writes to `found` the number of the encoding. The encoding is the one that the number
/// stands for or, for `FILE_BY_MARK`, that of the byte order mark that the bytes begin with, and
/// UTF-8 without a mark. A mark is no part of the text.
///
/// Takes time and memory in proportion to the text.
///
/// # Errors
///
/// `UNKNOWN_BREAK_SET`, then `UNKNOWN_ENCODING`; then `NO_MARK`, where the encoding has a mark and
/// the bytes begin otherwise. Then the first that reading the bytes meets: `INVALID_UTF8`, at the
/// first byte that begins no character; `UNPAIRED_SURROGATE`, at a code unit that is half of a pair
/// and stands alone; `HALF_CODE_UNIT`, at the last byte, which is half of a code unit; each writes
/// its offset in the bytes to `offset`. `TOO_LONG` and `OUT_OF_MEMORY` are met in a text, whatever
/// follows. A call that fails writes nothing else, and leaves the handle as it was.
#[unsafe(no_mangle)]
pub extern "C" fn ropey_from_bytes_as(
    alloc: Global,
    bytes: &[u8],
    encoding: u32,
    break_set: u32,
    rope: &mut Handle,
    found: &mut u32,
    offset: &mut usize,
) -> u32
    ensures { ReadsAs (given_breaks break_set) (encoding_of_bytes encoding bytes.now) bytes.now
        result rope.old.rope rope.new.rope found.old found.new offset.old offset.new }
{
    let breaks = breaks_for!(break_set);
    let encoding = some_or!(encoding_of_bytes(encoding, bytes), UNKNOWN_ENCODING);
    let read = read(alloc, bytes, breaks, encoding);
    report(alloc, read, encoding, rope, found, offset)
}
