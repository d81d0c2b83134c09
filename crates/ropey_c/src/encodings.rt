//! The numbers of the encodings of files, and why bytes are no text.
ghost use Rattle.std.specs.Prelude.{◌≡◌, ◌<◌};
ghost use Rattle.ropey_c.specs.Files.{given_file_encoding, number_of_encoding, encoding_of_bytes, status_of_fault};

use crate::status::{
    FILE_BY_MARK, FILE_LATIN1, FILE_UTF8, FILE_UTF8_BOM, FILE_UTF16_BE, FILE_UTF16_BE_BOM,
    FILE_UTF16_LE, FILE_UTF16_LE_BOM, HALF_CODE_UNIT, INVALID_UTF8, NO_MARK, OUT_OF_MEMORY,
    TOO_LONG, UNPAIRED_SURROGATE,
};
use rope_files::Encoding;

// Why no rope was made of bytes. An offset counts from the first byte, the mark's too.
#[derive(Clone, Copy)]
pub(crate) enum Fault {
    // The bytes don't begin with the encoding's mark.
    NoMark,
    // The bytes from this offset on don't begin with a character of UTF-8.
    InvalidUtf8(usize),
    // The code unit at this offset is half of a pair and stands alone.
    UnpairedSurrogate(usize),
    // The bytes end after half of the code unit at this offset.
    HalfCodeUnit(usize),
    // The text would have more than `isize::MAX` bytes.
    TooLong,
    // Out of memory.
    OutOfMemory,
}

// The status of a fault.
pub(crate) fn status_of_fault(fault: Fault) -> u32
    ensures value { result ≡ status_of_fault fault }
    ensures refused { 0 < result }
{
    match fault {
        Fault::NoMark => NO_MARK,
        Fault::InvalidUtf8(_) => INVALID_UTF8,
        Fault::UnpairedSurrogate(_) => UNPAIRED_SURROGATE,
        Fault::HalfCodeUnit(_) => HALF_CODE_UNIT,
        Fault::TooLong => TOO_LONG,
        Fault::OutOfMemory => OUT_OF_MEMORY,
    }
}

// The encoding that a number stands for.
pub(crate) fn given_file_encoding(number: u32) -> Option<Encoding>
    ensures { result ≡ given_file_encoding number }
{
    match number {
        FILE_UTF8 => Some(Encoding::Utf8),
        FILE_UTF8_BOM => Some(Encoding::Utf8Bom),
        FILE_UTF16_LE => Some(Encoding::Utf16Le),
        FILE_UTF16_LE_BOM => Some(Encoding::Utf16LeBom),
        FILE_UTF16_BE => Some(Encoding::Utf16Be),
        FILE_UTF16_BE_BOM => Some(Encoding::Utf16BeBom),
        FILE_LATIN1 => Some(Encoding::Latin1),
        _ => None,
    }
}

// The encoding in which bytes are read: the one that a number stands for, or that of their mark.
pub(crate) fn encoding_of_bytes(number: u32, bytes: &[u8]) -> Option<Encoding>
    ensures { result ≡ encoding_of_bytes number bytes.now }
{
    if number == FILE_BY_MARK {
        return Some(Encoding::of_mark(bytes));
    }
    given_file_encoding(number)
}

// The number that stands for an encoding.
pub(crate) fn number_of_encoding(encoding: Encoding) -> u32
    ensures { result ≡ number_of_encoding encoding }
{
    match encoding {
        Encoding::Utf8 => FILE_UTF8,
        Encoding::Utf8Bom => FILE_UTF8_BOM,
        Encoding::Utf16Le => FILE_UTF16_LE,
        Encoding::Utf16LeBom => FILE_UTF16_LE_BOM,
        Encoding::Utf16Be => FILE_UTF16_BE,
        Encoding::Utf16BeBom => FILE_UTF16_BE_BOM,
        Encoding::Latin1 => FILE_LATIN1,
    }
}
