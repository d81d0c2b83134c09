//! Borrowed slices of ropes and of plain texts. No call takes memory, except those that copy a
//! text.
//!
//! A slice has the queries of a rope, over its own text: `rope.slice(4..).line(0)` is the first
//! line from character 4 on. A *lookup* enters one node a level of the rope's tree and reads part
//! of one chunk; in a plain text it reads the text up to the index.
//!
//!     let slice = RopeSlice::from("one\ntwo");
//!     let second = slice.line(1);  // "two"
//!
//! A cursor is between two items. Over the characters of the slice `1..3` of `"abcd"`, `chars()`
//! gives `b`, then `c`, then none.
//!
//! Modules, lowest first:
//! - `plain`, `excerpt`: a plain text; a slice of a tree's text with at least one character
//! - `slice`: either of them, its lengths, and slices of it
//! - `lookups`: bytes, characters and chunks by their index, and conversions
//! - `path`, `span`, `point`: a leaf of a tree, a chunk of a slice, and a step over one of its
//!   characters
//! - `bytes`, `chars`, `chunks`, `lines`: the four cursors, and lines by their number
//! - `line_end`: the line break at the end of a slice
//! - `pieces`: the bytes of a slice, forward only
//! - `order`, `hashing`, `text_out`: texts compared, hashed, copied and shown
//! - `laws`: equality, order and hash; each cursor steps through the list of its items
#![tactic(auto)]

// Functions that return a slice, a cursor or several counts are inlined if they are short or the
// start of a hot path: a call would store the result by words, and a caller that moves it would
// have a store-forwarding stall.

mod bytes;
mod chars;
mod chunks;
mod excerpt;
mod hashing;
pub mod laws;
mod line_end;
mod lines;
mod lookups;
mod order;
mod path;
mod pieces;
mod plain;
mod point;
mod slice;
mod span;
mod text_out;

pub use bytes::Bytes;
pub use chars::Chars;
pub use chunks::{Chunks, ChunksAt};
pub use excerpt::Excerpt;
pub use lines::Lines;
pub use lookups::ChunkAt;
pub use plain::Plain;
pub use slice::RopeSlice;
