//! Positions in ropes and slices by line and column, as language servers use them: columns count
//! UTF-16 code units, or those of the encoding that client and server agreed on.
//!
//! In `"one\n😀x"`, character 5 has the position of line 1 and column 2, since the emoji takes two
//! code units of UTF-16; in UTF-8 its column is 4, in UTF-32 it is 1.
//!
//! The protocol knows LF, CR and CR LF as line breaks and no others: a document of a language
//! server is a rope made with `LineBreaks::CrLf`. With the default set a form feed or a U+2028
//! would shift the lines after it.
//!
//! Each call costs a few lookups and takes no memory.
//!
//! Modules, lowest first:
//! - `encoding`: the units of columns
//! - `position`: positions, and the conversions from and to characters
//! - `ropes`, `slices`: these calls on ropes and slices
//! - `laws`: a position converts back to its character
#![tactic(auto)]

mod encoding;
pub mod laws;
mod position;
mod ropes;
mod slices;

pub use encoding::Encoding;
pub use position::{Position, Positions};
