//! The leaves of a rope's tree, and the running totals of a list of children.
//!
//! A leaf is a text of 1 to 984 bytes with its counts, in a block of 1,024 bytes. Totals are the
//! counts of the first children, of the first two, and so on, of the 12 to 24 children of an inner
//! node, in which a binary search finds a child. The tree that is made of them is in `rope_tree`;
//! its definitions are in `specs/` here, since a leaf is a tree of height 0.
//!
//! Modules, lowest first:
//! - `node_text`, `short_text`: the text of a leaf, and borrowed texts to insert
//! - `maker`, `search`, `editor`: new nodes, running totals, and both with the counts of an edit
//! - `beside`: the minimum bytes beside neighbours
//! - `leaf_edits`, `leaf`: edits of a leaf's text, and a text with its counts
#![tactic(auto)]

mod beside;
mod editor;
mod leaf;
mod leaf_edits;
mod maker;
mod node_text;
mod search;
mod short_text;

pub use beside::{Least, least_at};
pub use editor::Editor;
pub use leaf::Leaf;
pub use leaf_edits::{ends_in_cr, infos_of_parts, leaf_with};
pub use maker::{Made, Maker};
pub use node_text::{NodeText, first_leaf_len, halves_of, text_of_parts};
pub use search::{Totals, Unit, char_to_hold, count, place_of, total_before, try_place};
pub use short_text::{MediumText, ShortText};

/// The maximum number of bytes of a medium text: an insert of it replaces one leaf by at most
/// `MAX_PIECES`. A longer text is built as a tree of its own.
pub const MAX_MEDIUM_BYTES: usize = 4096;

/// The maximum number of leaves made of a leaf and a medium text.
pub const MAX_PIECES: usize = 6;
