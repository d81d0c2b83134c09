//! The text buffer of an editor: ropey 1.6.1 with contracts.
//!
//! A [`Rope`] is a text of up to `isize::MAX` bytes that can be edited anywhere at the cost of a
//! descent from the root of a tree to a leaf. Its leaves are *chunks*: pieces of 1 to [`MAX_BYTES`]
//! bytes, never cut inside a character or between CR and LF. Clones share nodes until one of them
//! is edited, so a clone costs nothing and an undo history little.
//!
//! *Indices* begin at 0, and count bytes, characters (Unicode scalar values), UTF-16 code units or
//! lines. A line ends after a line break of the rope's set ([`LineBreaks`]: LF; LF and CR; or all
//! of Unicode's), and CR LF is one break wherever CR is one. A rope has one line more than it has
//! breaks.
//!
//! *Errors.* A call named `insert`, `slice` or `char_to_byte` has a precondition on its index,
//! which a proved caller meets. Its checked variants have none: `try_..` returns an [`Error`], and
//! `get_..` returns `None`. A call that takes memory returns a `Result`, and a failed edit leaves
//! the rope unchanged. Lookups, slices, cursors and comparisons take no memory.
//!
//! *Costs.* A lookup enters one node a level, at most 19, compares at most five totals in each
//! inner one, and reads part of one chunk. Lengths take constant time. An edit makes a number of
//! nodes in proportion to the rope's depth, and an insert of more than 981 bytes also some in
//! proportion to that text; no edit scans the rope's text. A step of a cursor stays in its chunk or
//! moves to the next one.
//!
//!     let mut rope = Rope::from_str(alloc, "hello world")?;
//!     rope.remove(5..)?;
//!     rope.insert(5, ", you")?;          // "hello, you"
//!     let start = rope.line_to_char(0);  // 0
//!
//! *Modules.* `rope` makes, clones and measures ropes, `rope_builder` and `texts` make them of
//! pieces; `rope_edits` changes them, with variants that count their steps; `lookups` reads at an
//! index; `slices` borrows slices and starts cursors, which `iter` names; `compare`, `texts` and
//! `io` read whole texts; `str_utils` is about plain ones; `laws` states laws of equality, order
//! and hash.
#![tactic(auto)]

mod compare;
pub mod io;
pub mod iter;
pub mod laws;
mod lookups;
mod rope;
mod rope_builder;
mod rope_edits;
mod slices;
pub mod str_utils;
mod texts;

pub use rope::Rope;
pub use rope_builder::RopeBuilder;
pub use rope_slice::RopeSlice;
pub use rope_text::{
    Error, IndexRange, LineBreaks, MAX_BYTES, MAX_CHILDREN, MIN_BYTES, MIN_CHILDREN, Result, Steps,
};
pub use std::borrow::CowStr;
