//! Files in the encodings that editors meet: read into ropes, and written back as they were.
//!
//! `read_any` finds the encoding of a file by its byte order mark, or takes the one that its caller
//! declares, and returns a rope with the encoding; `write_as` writes a rope in an encoding. A file
//! that is read and written unedited, in the encoding that was returned, is the same bytes; a text
//! that was written and is read again, with its encoding declared, is the same text.
//!
//! *Marks.* An [`Encoding`] says whether the file begins with a mark, so that it is written back
//! with one exactly where it had one. A mark is no part of the text.
//!
//! *Declared encodings.* Without a declaration, a mark decides, and a file without a mark is
//! UTF-8. A declaration decides alone: where an encoding without a mark is declared, the bytes of a
//! mark are text like any others (U+FEFF in UTF-8 and UTF-16 of the same byte order, `ÿþ` in
//! Latin-1), and where one with a mark is declared, a file without that mark is refused with
//! `NoMark`. So UTF-16 without a mark is read where it is declared, and written without one.
//!
//!     let (rope, encoding) = read_any(alloc, b"\xFF\xFEa\0".as_slice(), breaks, None)?;
//!     // "a", Encoding::Utf16LeBom
//!     write_as(&rope, encoding, &mut bytes)?;  // b"\xFF\xFEa\0"
//!
//! *What it costs.* Reading takes time and memory in proportion to the text, and no memory beside
//! the rope. UTF-8 is handed on to `ropey` once its first three bytes were looked at, and costs
//! what `Rope::from_reader` does. Writing takes no memory. Only Latin-1 is scanned twice.
//!
//! Modules, lowest first:
//! - `encoding`: the encodings and their marks
//! - `error`: why nothing was read or written
//! - `layout`: the bytes of single characters in UTF-16 and Latin-1
//! - `decode`: texts of such bytes
//! - `ahead`: a source whose first bytes were looked at
//! - `reading`, `writing`: the calls
//! - `laws`: what is read is what was written
#![tactic(auto)]

mod ahead;
mod decode;
mod encoding;
mod error;
pub mod laws;
mod layout;
mod reading;
mod writing;

pub use encoding::Encoding;
pub use error::{ReadAnyError, ReadAnyResult, WriteAsError};
pub use reading::{read_any, read_any_watched};
pub use writing::{write_as, write_as_watched};
