//! Plain texts: line breaks, counts, conversions between indices, positions where a text may be
//! cut, index ranges and errors; and the definitions that the contracts of every crate cite.
//!
//! Modules, lowest first:
//! - `bits`: masks of blocks of 32 bytes
//! - `lanes`: counts over bytes, a block at a time
//! - `seek`: the byte offset of a character, a code unit or a break
//! - `back`: backward searches for a line break, with the counts of the text passed
//! - `str_utils`: counts of a text, conversions between its indices
//! - `text_info`: the four counts of a text
//! - `utf8`: the longest prefix of some bytes that is UTF-8
//! - `crlf`: positions where a text may be cut
//! - `line_breaks`: the three sets of line breaks
//! - `range`: the six kinds of ranges
//! - `error`: the errors of all calls
//! - `steps`: counts of the work of a call
//! - `laws`: properties of the definitions
#![tactic(auto)]

mod back;
mod bits;
pub mod crlf;
mod error;
mod lanes;
pub mod laws;
mod line_breaks;
pub mod range;
mod seek;
mod steps;
pub mod str_utils;
mod text_info;
pub mod utf8;

pub use error::{Error, Result};
pub use line_breaks::LineBreaks;
pub(crate) use line_breaks::known_set;
pub use range::IndexRange;
pub use steps::Steps;
pub use text_info::TextInfo;

/// The maximum number of bytes of a text.
pub const MAX_TEXT_BYTES: usize = isize::MAX as usize;

/// The maximum number of bytes of a leaf.
pub const MAX_BYTES: usize = 984;

/// The minimum number of bytes of a leaf that is cut off a longer text: there is always a position
/// to cut at most three bytes before the maximum.
pub const MIN_CUT_BYTES: usize = MAX_BYTES - 3;

/// The maximum number of bytes of a text inserted into a leaf: a full leaf plus this text always
/// splits into two leaves.
pub const MAX_SHORT_BYTES: usize = 981;

/// The maximum number of bytes of a leaf and a text inserted into it.
pub const MAX_JOINED_BYTES: usize = MAX_BYTES + MAX_SHORT_BYTES;

/// Two adjacent leaves that fit into one are merged if either has fewer bytes than this.
pub const MIN_BYTES: usize = 462;

/// The minimum number of bytes of two adjacent leaves.
pub const MIN_TWO_LEAVES_BYTES: usize = 492;

/// A leaf of at least this many bytes may be adjacent to any other, since every leaf has at least
/// one byte. Each half of a split leaf has at least this many.
pub const MIN_HALF_BYTES: usize = MIN_TWO_LEAVES_BYTES - 1;

/// The size of the buffer for bytes of a device. A full buffer that begins with no text is refused.
pub const BUFFER_BYTES: usize = 2 * MAX_BYTES;

/// The maximum number of children of an inner node.
pub const MAX_CHILDREN: usize = 24;

/// The minimum number of children of an inner node that is not the root.
pub const MIN_CHILDREN: usize = 12;

/// The number of leaves given to a fresh node: below the maximum, so that the node has room when a
/// leaf splits and no node on the path is copied. Fresh leaves are full, so the first insert into
/// each splits it.
pub const FRESH_LEAVES: usize = 20;

/// The number of children given to a fresh inner node of inner nodes; these split less often than
/// leaves.
pub const FRESH_CHILDREN: usize = 22;

/// The maximum number of levels above the leaves.
pub const MAX_HEIGHT: usize = 18;
